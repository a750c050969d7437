// The names of the marks of a set, each behind a space.
ghost use Rattle.std.specs.Prelude.{Some};
ghost use Rattle.script.specs.Answers.{mark_text, written_marks_text, marks_text};

use std::fmt;
use vocabulary::marks::Marks;

// The name of a mark, if a set has it.
#[derive(Clone, Copy)]
struct MarkName {
    set: Marks,
    mark: Marks,
    name: &'static str,
}

impl fmt::Display for MarkName {
    ghost output = { λ m. Some (mark_text m.set m.mark m.name.now) };

    fn fmt<W: fmt::Write>(&self, f: &mut fmt::Formatter<W>) -> fmt::Result {
        if self.set.meets(self.mark) {
            write!(f, " {}", self.name)?;
        }
        Ok(())
    }
}

// The marks of a set that can be written, from the smallest number up.
#[derive(Clone, Copy)]
pub struct WrittenMarks(pub Marks);

impl fmt::Display for WrittenMarks {
    ghost output = { λ m. Some (written_marks_text m.0) };

    fn fmt<W: fmt::Write>(&self, f: &mut fmt::Formatter<W>) -> fmt::Result {
        let set = self.0;
        let nuw = MarkName {
            set,
            mark: Marks::NUW,
            name: "nuw",
        };
        let nsw = MarkName {
            set,
            mark: Marks::NSW,
            name: "nsw",
        };
        let exact = MarkName {
            set,
            mark: Marks::EXACT,
            name: "exact",
        };
        write!(f, "{nuw}{nsw}{exact}")
    }
}

// All marks of a set, from the smallest number up.
#[derive(Clone, Copy)]
pub struct AllMarks(pub Marks);

impl fmt::Display for AllMarks {
    ghost output = { λ m. Some (marks_text m.0) };

    fn fmt<W: fmt::Write>(&self, f: &mut fmt::Formatter<W>) -> fmt::Result {
        let set = self.0;
        let range = MarkName {
            set,
            mark: Marks::RANGE,
            name: "range",
        };
        write!(f, "{}{range}", WrittenMarks(set))
    }
}
