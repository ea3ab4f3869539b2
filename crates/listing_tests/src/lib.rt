// The listings of small strips.
#![tactic(auto)]

#[cfg(test)]
mod tests {
    use image::{Cause, Refusal};
    use listing::{refusal, strip_blocks, strip_tape};
    use std::alloc::{AllocError, Global};
    use std::test::Fail;

    const MARK: [u8; 4] = [0, 0, 0, 0];

    const BAD: [u8; 4] = [255, 255, 255, 255];

    const END: [u8; 4] = [255, 255, 255, 254];

    // A record of one byte, and one of two.
    const ONE: [u8; 9] = [0, 0, 0, 1, 7, 0, 0, 0, 1];

    const TWO: [u8; 10] = [0, 0, 0, 2, 7, 7, 0, 0, 0, 2];

    fn joined(heap: Global, parts: &[&[u8]]) -> Result<Vec<u8>, AllocError> {
        let mut bytes = Vec::new(heap);
        for part in parts {
            bytes.extend_from_slice(part)?;
        }
        Ok(bytes)
    }

    fn listed(heap: Global, parts: &[&[u8]]) -> Result<String, AllocError> {
        strip_blocks(heap, joined(heap, parts)?)
    }

    #[test]
    fn empty_reel(rt: HostRuntime) -> Result<(), Fail> {
        let text = listed(rt.alloc(), &[&END])?;
        assert_eq!(rt; text.as_str(), "reel 1: 0 blocks\n");
        Ok(())
    }

    #[test]
    fn equal_and_unequal_records(rt: HostRuntime) -> Result<(), Fail> {
        let text = listed(rt.alloc(), &[&ONE, &ONE, &TWO, &ONE, &END])?;
        assert_eq!(rt;
            text.as_str(),
            "reel 1: 4 blocks\n2 records of 1\n1 record of 2\n1 record of 1\n"
        );
        Ok(())
    }

    #[test]
    fn marks_and_bad_blocks(rt: HostRuntime) -> Result<(), Fail> {
        let text = listed(rt.alloc(), &[&MARK, &BAD, &BAD, &MARK, &MARK, &BAD, &END])?;
        assert_eq!(rt;
            text.as_str(),
            "reel 1: 6 blocks\n1 mark\n2 bad\n2 marks\n1 bad\n"
        );
        Ok(())
    }

    #[test]
    fn run_ends_with_its_reel(rt: HostRuntime) -> Result<(), Fail> {
        let text = listed(rt.alloc(), &[&ONE, &END, &ONE, &ONE, &END])?;
        assert_eq!(rt;
            text.as_str(),
            "reel 1: 1 block\n1 record of 1\nreel 2: 2 blocks\n2 records of 1\n"
        );
        Ok(())
    }

    #[test]
    fn refused_strips(rt: HostRuntime) -> Result<(), Fail> {
        let empty = listed(rt.alloc(), &[])?;
        assert_eq!(rt; empty.as_str(), "IMAGE 1 0\n");
        let unequal = listed(rt.alloc(), &[&MARK, &[0, 0, 0, 1, 7, 0, 0, 0, 2], &END])?;
        assert_eq!(rt; unequal.as_str(), "IMAGE 2 9\n");
        Ok(())
    }

    #[test]
    fn refusal_line(rt: HostRuntime) -> Result<(), Fail> {
        let outside = Refusal {
            cause: Cause::OutsideImage,
            offset: 1024,
        };
        let text = refusal(rt.alloc(), outside)?;
        assert_eq!(rt; text.as_str(), "IMAGE 4 1024\n");
        Ok(())
    }

    fn taped(heap: Global, parts: &[&[u8]]) -> Result<String, AllocError> {
        strip_tape(heap, joined(heap, parts)?)
    }

    // So many zeros: a strip of marks whose reel does not end.
    fn zeros(heap: Global, count: usize) -> Result<String, AllocError> {
        strip_tape(heap, vec![in heap; 0; count]?)
    }

    #[test]
    fn faulty_sets(rt: HostRuntime) -> Result<(), Fail> {
        let nothing = taped(rt.alloc(), &[&END])?;
        assert_eq!(rt; nothing.as_str(), "FAULT 11 1 1 1\n");
        let bad = taped(rt.alloc(), &[&BAD, &END])?;
        assert_eq!(rt; bad.as_str(), "FAULT 12 1 1 1\n");
        let mark = taped(rt.alloc(), &[&MARK, &END, &END])?;
        assert_eq!(rt; mark.as_str(), "FAULT 21 2 1 1\n");
        let short = taped(rt.alloc(), &[&TWO, &END])?;
        assert_eq!(rt; short.as_str(), "FAULT 23 2 1 1\n");
        Ok(())
    }

    #[test]
    fn refused_tapes(rt: HostRuntime) -> Result<(), Fail> {
        let empty = taped(rt.alloc(), &[])?;
        assert_eq!(rt; empty.as_str(), "IMAGE 1 0\n");
        let unequal = taped(rt.alloc(), &[&MARK, &[0, 0, 0, 1, 7, 0, 0, 0, 2], &END])?;
        assert_eq!(rt; unequal.as_str(), "IMAGE 2 9\n");
        Ok(())
    }

    #[test]
    fn long_strips(rt: HostRuntime) -> Result<(), Fail> {
        let longest = zeros(rt.alloc(), 65536)?;
        assert_eq!(rt; longest.as_str(), "IMAGE 1 65536\n");
        let longer = zeros(rt.alloc(), 65537)?;
        assert_eq!(rt; longer.as_str(), "LONG\n");
        Ok(())
    }
}
