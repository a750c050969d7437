// Programs on a bench over the house pile of width 4: what is refused at which line, the limits, and evaluations.
#![tactic(auto)]

#[cfg(test)]
mod tests {
    use bench::bench::Bench;
    use bench::fault::BenchFault;
    use domain::{Outcome, Trapped};
    use layers::poison::Poison;
    use std::alloc::{AllocError, Global};
    use std::process::Abort;
    use std::test::Fail;
    use vocabulary::marks::Marks;
    use words::Words;

    // A text, and the number and line of its refusal.
    const REFUSED: [(&[u8], u8, u16); 36] = [
        (b"", 2, 1),
        (b"\n", 2, 2),
        (b"in", 2, 2),
        (b"in\n", 2, 2),
        (b"; only a comment", 2, 2),
        (b"in %x\n%r = copy %x", 2, 3),
        (b"in %x\nret %x\n", 2, 2),
        (b"ret %r\n", 2, 1),
        (b"in %x\nin %y\n", 2, 2),
        (b"in x\n", 2, 1),
        (b"in %x\n%r = neg %x\n", 2, 2),
        (b"in %x\n%r = add %x\n", 2, 2),
        (b"in %x\n%r = add %x, %x, %x\n", 2, 2),
        (b"in %x\n%r = add %x nsw, %x\n", 2, 2),
        (b"in %x\n%r = add disjoint %x, 1\n", 2, 2),
        (b"in %x\n%abcdefghijklmnop = copy %x\n", 2, 2),
        (b"in %x\n %r = copy %x ;\nret %r\n", 2, 2),
        (b"in %x\n%r = copy %x\nret %r %r\n", 2, 3),
        (b"in %x\n%r = copy %x\nret %r\n\nin\n", 2, 5),
        (b"in %x\n%r = add %x, 256\n", 3, 2),
        (b"in %x\n%r = add %x, -129\n", 3, 2),
        (b"in %x\n%r = add %x, #65536\n", 3, 2),
        (b"in %x\n%r = add exact %z, 99999999999999999999\n", 3, 2),
        (b"in %1 %2 %3 %4 %5 %6 %7 %8 %9\n", 4, 1),
        (b"in %1 %1 %3 %4 %5 %6 %7 %8 %9\n", 4, 1),
        (b"in %x, %x\n", 5, 1),
        (b"in %x\n\n%r = add %x, %z\n", 5, 3),
        (b"in %x\n%x = copy 1\n", 5, 2),
        (b"in %x\n%r = copy 1\n%r = copy 2\n", 5, 3),
        (b"in %x\n%r = copy 1\nret %x\n", 5, 3),
        (b"in %x\n%r = copy 1\nret %q\n", 5, 3),
        (b"in %x\n%r = add exact %x, 1\n", 6, 2),
        (b"in %x\n%r = add nsw nsw %x, 1\n", 6, 2),
        (b"in %x\n%r = shl range %x, 1\n", 6, 2),
        (b"in %x\n%r = add %x, 16\n", 7, 2),
        (b"in %x\n%r = add %x, #16\n", 7, 2),
    ];

    fn house() -> Result<Bench<Poison<Words>>, Fail> {
        let words = Words::new(4)?;
        Ok(Bench::new(Poison::over(words, Marks::all())))
    }

    fn refuses(rt: &impl Abort, text: &[u8], number: u8, line: u16) -> Result<(), Fail> {
        let mut bench = house()?;
        match bench.load(text) {
            Ok(()) => Err(Fail::new("loaded")),
            Err(fault) => {
                assert_eq!(rt; fault.number(), number);
                assert_eq!(rt; fault.line(), line);
                Ok(())
            }
        }
    }

    #[test]
    fn each_fault_is_told_with_its_line(rt: HostRuntime) -> Result<(), Fail> {
        for (text, number, line) in REFUSED {
            refuses(&rt, text, number, line)?;
        }
        Ok(())
    }

    #[test]
    fn a_text_has_at_most_4096_bytes(rt: HostRuntime) -> Result<(), Fail> {
        let long = [b';'; 4097];
        refuses(&rt, &long, 1, 0)?;
        refuses(&rt, &long[0..4096], 2, 2)
    }

    // Fills a text with bytes that look random, and answers where to go on.
    fn fill(text: &mut [u8], seed: u32) -> u32 {
        let mut next = seed;
        for byte in text.iter_mut() {
            next = next.wrapping_mul(1664525).wrapping_add(1013904223);
            *byte = (next >> 24) as u8;
        }
        next
    }

    // Whatever the bytes are, a refused text leaves a bench without a program.
    fn refuses_noise(rt: &impl Abort, seed: u32) -> Result<u32, Fail> {
        let mut text = [0u8; 512];
        let next = fill(&mut text, seed);
        let mut bench = house()?;
        assert!(rt; bench.load(&text).is_err());
        assert!(rt; bench.program().is_none());
        Ok(next)
    }

    #[test]
    fn any_bytes_are_answered(rt: HostRuntime) -> Result<(), Fail> {
        let mut seed = 1;
        for _ in 0..200 {
            seed = refuses_noise(&rt, seed)?;
        }
        Ok(())
    }

    fn evaluates(
        rt: &impl Abort,
        text: &[u8],
        inputs: &[u16],
        choices: &[u16],
        outcome: Outcome,
    ) -> Result<(), Fail> {
        let mut bench = house()?;
        bench.load(text)?;
        assert_eq!(rt; bench.evaluate(inputs, choices)?, outcome);
        Ok(())
    }

    #[test]
    fn traps_poison_and_freezes(rt: HostRuntime) -> Result<(), Fail> {
        let division = b"in %x\n%q = udiv 1, %x\n%r = copy 3\nret %r\n";
        evaluates(&rt, division, &[0], &[], Err(Trapped))?;
        evaluates(&rt, division, &[16], &[], Err(Trapped))?;
        evaluates(&rt, division, &[5], &[], Ok(3))?;
        let sum = b"in %x\n%r = add nsw %x, 1\nret %r\n";
        evaluates(&rt, sum, &[7], &[], Ok(16))?;
        evaluates(&rt, sum, &[6], &[], Ok(7))?;
        let freezes = b"in %x\n%a = freeze 3\n%b = freeze %x\n%r = sub %b, %a\nret %r\n";
        evaluates(&rt, freezes, &[16], &[9, 5], Ok(2))?;
        evaluates(&rt, freezes, &[4], &[9, 5], Ok(1))?;
        let choice = b"in %x\n%r = select %x, 3, 4\nret %r\n";
        evaluates(&rt, choice, &[16], &[], Ok(16))?;
        evaluates(&rt, choice, &[0], &[], Ok(4))
    }

    fn fault_number(answer: Result<Outcome, BenchFault>) -> u8 {
        match answer {
            Ok(_) => 0,
            Err(fault) => fault.number(),
        }
    }

    #[test]
    fn evaluations_are_refused_in_order(rt: HostRuntime) -> Result<(), Fail> {
        let mut bench = house()?;
        assert_eq!(rt; fault_number(bench.evaluate(&[1], &[])), 13);
        bench.load(b"in %x\n%r = freeze %x\nret %r\n")?;
        assert_eq!(rt; fault_number(bench.evaluate(&[], &[1])), 20);
        assert_eq!(rt; fault_number(bench.evaluate(&[17], &[])), 20);
        assert_eq!(rt; fault_number(bench.evaluate(&[17], &[1])), 21);
        assert_eq!(rt; fault_number(bench.evaluate(&[16], &[16])), 21);
        assert_eq!(rt; fault_number(bench.evaluate(&[16], &[15])), 0);
        assert!(rt; bench.load(b"in\n").is_err());
        assert_eq!(rt; fault_number(bench.evaluate(&[16], &[15])), 0);
        Ok(())
    }

    // Eight inputs and so many sums, each of the one before and the last input.
    fn write_sums(out: &mut String, count: u32) -> Result<(), AllocError> {
        write!(out, "in %a %b %c %d %e %f %g %h\n%r1 = add %a, %b\n")?;
        for k in 1..count {
            let next = k.wrapping_add(1);
            write!(out, "%r{next} = add %r{k}, %h\n")?;
        }
        write!(out, "ret %r{count}\n")
    }

    fn sums(heap: Global, count: u32) -> Result<String, AllocError> {
        let mut out = String::new(heap);
        write_sums(&mut out, count)?;
        Ok(out)
    }

    #[test]
    fn sixty_four_instructions_are_loaded(rt: HostRuntime) -> Result<(), Fail> {
        let heap = rt.alloc();
        let full = sums(heap, 64)?;
        let mut bench = house()?;
        bench.load(full.as_bytes())?;
        let outcome = bench.evaluate(&[1, 2, 0, 0, 0, 0, 0, 3], &[])?;
        assert_eq!(rt; outcome, Ok(0));
        let over = sums(heap, 65)?;
        match bench.load(over.as_bytes()) {
            Ok(()) => Err(Fail::new("a 65th instruction was loaded")),
            Err(fault) => {
                assert!(rt; fault.number() == 4 && fault.line() == 66);
                Ok(())
            }
        }
    }
}
