// Reading a job file from an input.
#![tactic(auto)]

ghost use Rattle.std.specs.Prelude.{◌≡◌, take, IfSome, IfOk};

use jobformat::LONGEST;
use std::alloc::Global;
use std::io;
use std::io::Read;

/// One byte more than the longest job file has: enough to see that a longer input is none.
const ENOUGH: u64 = LONGEST as u64 + 1;

/// The bytes of an input, up to one more than the longest job file has, so that any input is read in
/// bounded memory.
pub fn read_file<R: Read + Drop>(heap: Global, input: R) -> io::Result<Vec<u8>>
    ensures { IfOk result (λ bytes. IfSome (R.remaining input) (λ given. bytes.items ≡ take 651 given)) }
{
    let mut bytes = Vec::new(heap);
    input.take(ENOUGH).read_to_end(&mut bytes)?;
    Ok(bytes)
}

#[cfg(test)]
mod tests {
    use super::*;
    use std::test::Fail;

    #[test]
    fn reads_no_more_than_enough(rt: HostRuntime) -> Result<(), Fail> {
        let short = read_file(rt.alloc(), [7, 8, 9].as_slice())?;
        assert!(rt; short.as_slice() == [7, 8, 9].as_slice());
        let long = read_file(rt.alloc(), [5; 700].as_slice())?;
        assert_eq!(rt; long.len(), 651);
        Ok(())
    }
}
