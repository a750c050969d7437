// A case of a rule, and the next one.
ghost use Rattle.std.specs.Prelude.{◌≡◌, ◌≤◌, length, take, drop};
ghost use Rattle.checker.specs.Walks.{sets, first_digits};

use crate::codes::Codes;
use domain::Domain;

// Codes of the variables, then settled codes as choices, at the front of the digits. Choices alone are a case without variables.
// The digits lie in an array with their counts, and not in a vector, as every case is a copy of another.
#[derive(Clone, Copy)]
pub struct Case {
    digits: [u16; 12],
    variable_count: u8,
    choice_count: u8,
    ghost long: { length digits ≡ 12 },
    ghost few_variables: { variable_count ≤ 4 },
    ghost few_choices: { choice_count ≤ 8 },
}

impl Case {
    ghost use Rattle.checker.specs.Shown.{Goes};

    // The codes of the variables, in their order.
    pub fn variables(&self) -> &[u16]
        ensures { result.now ≡ take self.now.variable_count self.now.digits }
    {
        &self.digits[..self.variable_count as usize]
    }

    // The choices, in the order of the freezes.
    pub fn choices(&self) -> &[u16]
        ensures { result.now ≡ take self.now.choice_count (drop self.now.variable_count self.now.digits) }
    {
        let start = self.variable_count as usize;
        &self.digits[start..start + self.choice_count as usize]
    }

    // The first case in the order.
    pub(crate) fn first<D: Domain>(
        codes: &Codes<'_, D>,
        variable_count: u8,
        choice_count: u8,
    ) -> Self
        requires variables { variable_count ≤ 4 }
        requires choices { choice_count ≤ 8 }
        ensures digits { result.digits ≡ first_digits variable_count codes.now.least }
        ensures variables { result.variable_count ≡ variable_count }
        ensures choices { result.choice_count ≡ choice_count }
    {
        let mut digits = [codes.first(false); 12];
        digits[..variable_count as usize].fill(codes.first(true));
        Case {
            digits,
            variable_count,
            choice_count,
        }
    }

    // The next case: the last entry that can takes its next code, and those behind it their first. None where no entry can.
    pub(crate) fn next<D: Domain>(self, codes: &Codes<'_, D>) -> Option<Self>
        ensures { Goes (sets (D.Domain.model codes.now.domain.now) self.variable_count self.choice_count) self result }
    {
        let variables = self.variable_count as usize;
        let mut digits = self.digits;
        // by place, which tells whether the entry is free
        for place in (0..variables + self.choice_count as usize).rev() {
            let free = place < variables;
            if let Some(code) = codes.next(free, digits[place]) {
                digits[place] = code;
                return Some(Case {
                    digits,
                    variable_count: self.variable_count,
                    choice_count: self.choice_count,
                });
            }
            digits[place] = codes.first(free);
        }
        None
    }
}
