// Tests of the task file: what the reader accepts, and on which ground it refuses.
#![tactic(auto)]

#[cfg(test)]
mod tests {
    use rows::refusals::Refusal;
    use std::alloc::{AllocError, Global};
    use std::test::Fail;
    use task::faults::Fault;
    use task::tables::Task;
    use task::{name, read, write, write_sample};

    // The sample line's file.
    fn sample(heap: Global) -> Result<Vec<u8>, AllocError> {
        let mut file = vec![in heap; 0; 97]?;
        let _ = write_sample(file.as_mut_slice());
        Ok(file)
    }

    // The fault that refuses a file, or nothing for a file that is accepted.
    fn fault(file: &[u8]) -> Option<Fault> {
        read(file).err()
    }

    // The fault of the sample line with one byte more changed.
    fn changed(file: &mut Vec<u8>, at: usize, byte: u8) -> Option<Fault> {
        if at < file.len() {
            file[at] = byte;
        }
        fault(file.as_slice())
    }

    // The number of each fault.
    #[test]
    fn numbers(rt: HostRuntime) -> Result<(), Fail> {
        assert_eq!(rt; u8::from(Fault::Stub.refusal()), 1);
        assert_eq!(rt; u8::from(Fault::Contents.refusal()), 2);
        assert_eq!(rt; u8::from(Fault::Count.refusal()), 3);
        assert_eq!(rt; u8::from(Fault::Position.refusal()), 4);
        assert_eq!(rt; u8::from(Fault::Price.refusal()), 5);
        assert_eq!(rt; u8::from(Fault::Name.refusal()), 6);
        Ok(())
    }

    #[test]
    fn cut_short(rt: HostRuntime) -> Result<(), Fail> {
        let file = sample(rt.alloc())?;
        assert_eq!(rt; fault(file.as_slice()), None);
        assert!(rt; file.len() == 97);
        let bytes = file.as_slice();
        assert_eq!(rt; fault(&bytes[0..39]), Some(Fault::Stub));
        assert_eq!(rt; fault(&bytes[0..40]), Some(Fault::Contents));
        assert_eq!(rt; fault(&bytes[0..96]), Some(Fault::Contents));
        assert_eq!(rt; fault(&[]), Some(Fault::Stub));
        Ok(())
    }

    // (place, byte, fault) of one byte changed in the sample line.
    const CHANGES: [(usize, u8, Option<Fault>); 16] = [
        (0, 41, Some(Fault::Contents)),
        (4, 3, Some(Fault::Contents)),
        (7, 255, Some(Fault::Contents)),
        (32, 77, Some(Fault::Contents)),
        (39, 255, Some(Fault::Contents)),
        (40, 0, Some(Fault::Position)),
        (40, 255, None),
        (42, 255, Some(Fault::Position)),
        (42, 2, Some(Fault::Position)),
        (44, 2, Some(Fault::Position)),
        (45, 3, Some(Fault::Position)),
        (49, 255, Some(Fault::Price)),
        (78, 0, Some(Fault::Name)),
        (78, 41, Some(Fault::Name)),
        (79, 32, Some(Fault::Name)),
        (79, 127, Some(Fault::Name)),
    ];

    #[test]
    fn one_byte_changed(rt: HostRuntime) -> Result<(), Fail> {
        for (at, byte, expected) in CHANGES {
            let mut file = sample(rt.alloc())?;
            assert_eq!(rt; changed(&mut file, at, byte), expected);
        }
        Ok(())
    }

    #[test]
    fn the_highest_price(rt: HostRuntime) -> Result<(), Fail> {
        let mut file = sample(rt.alloc())?;
        changed(&mut file, 46, 0x00);
        changed(&mut file, 47, 0xca);
        changed(&mut file, 48, 0x9a);
        assert_eq!(rt; changed(&mut file, 49, 0x3b), None);
        assert_eq!(rt; changed(&mut file, 46, 0x01), Some(Fault::Price));
        Ok(())
    }

    // Each fault is told before the next one.
    #[test]
    fn the_first_fault(rt: HostRuntime) -> Result<(), Fail> {
        let mut file = sample(rt.alloc())?;
        assert_eq!(rt; changed(&mut file, 79, 32), Some(Fault::Name));
        assert_eq!(rt; changed(&mut file, 49, 255), Some(Fault::Price));
        assert_eq!(rt; changed(&mut file, 45, 3), Some(Fault::Position));
        changed(&mut file, 8, 43);
        changed(&mut file, 12, 1);
        assert_eq!(rt; changed(&mut file, 4, 3), Some(Fault::Count));
        assert_eq!(rt; changed(&mut file, 0, 41), Some(Fault::Contents));
        Ok(())
    }

    #[test]
    fn names_and_places(rt: HostRuntime) -> Result<(), Fail> {
        let file = sample(rt.alloc())?;
        match name(file.as_slice(), 3) {
            Ok(Some((text, place))) => {
                assert!(rt; text == b"carry".as_slice());
                assert_eq!(rt; place, 92);
            }
            _ => return Err(Fail::new("no name")),
        }
        match name(file.as_slice(), 4) {
            Ok(None) => Ok(()),
            _ => Err(Fail::new("a fifth move")),
        }
    }

    // Writes the bodies into a buffer of this size, and reads back what was written.
    fn round(heap: Global, task: &Task<'_>, size: usize) -> Result<Result<usize, Refusal>, Fail> {
        let mut out = vec![in heap; 7; size]?;
        let written = write(task, out.as_mut_slice());
        if written.is_ok() && fault(out.as_slice()).is_some() {
            return Err(Fail::new("not read back"));
        }
        Ok(written)
    }

    #[test]
    fn small_and_large(rt: HostRuntime) -> Result<(), Fail> {
        let heap = rt.alloc();
        let none = Task {
            values: &[1],
            start: &[0],
            goal: &[255],
            moves: &[],
            names: &[],
        };
        assert_eq!(rt; round(heap, &none, 43)?, Ok(43));
        assert_eq!(rt; round(heap, &none, 42)?, Err(Refusal::ShortBuffer));
        let most = [255; 64];
        let zeros = [0; 64];
        let large = Task {
            values: &most,
            start: &zeros,
            goal: &most,
            moves: &[],
            names: &[],
        };
        assert_eq!(rt; round(heap, &large, 232)?, Ok(232));
        let more = [2; 65];
        let many = Task {
            values: &more,
            start: &more,
            goal: &more,
            moves: &[],
            names: &[],
        };
        assert_eq!(rt; round(heap, &many, 300)?, Err(Refusal::Count));
        let empty = Task {
            values: &[],
            start: &[],
            goal: &[],
            moves: &[],
            names: &[],
        };
        assert_eq!(rt; round(heap, &empty, 40)?, Err(Refusal::Count));
        Ok(())
    }

    #[test]
    fn a_short_buffer_is_left_alone(rt: HostRuntime) -> Result<(), Fail> {
        let mut out = vec![in rt.alloc(); 9; 96]?;
        assert_eq!(rt; write_sample(out.as_mut_slice()), Err(Refusal::ShortBuffer));
        assert!(rt; out.iter().all(|b| *b == 9));
        Ok(())
    }
}
