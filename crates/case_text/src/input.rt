// What a test program reads.
ghost use Rattle.case_text.specs.Prefix.{Prefix};

use std::io::Read;

// Reads until the space is full or the input ends, and answers how many bytes it put at the start. A read
// that fails counts as the end.
pub fn read_full(input: &mut impl Read, space: &mut [u8]) -> usize
    ensures { Prefix result space.new }
{
    let mut done = 0;
    while done < space.len() {
        match input.read(&mut space[done..]) {
            Ok(0) | Err(_) => {
                break;
            }
            Ok(n) => {
                done += n;
            }
        }
    }
    done
}
