// A line in the making.
ghost use Rattle.std.specs.Prelude.{◌≡◌, ◌+◌, ◌≤◌, ◌++◌, length, decimal};
ghost use Rattle.arrayvec.specs.ArrayVec.{array_vec_len};
ghost use Rattle.report.specs.Lines.{numbers_text, Written};

use arrayvec::ArrayVec;
use book::JobFault;
use itoa::Buffer;

/// More bytes than a line has: a word of 8, and 8 numbers of at most 20 digits, a byte behind each.
pub const LONGEST_LINE: usize = 192;

/// The bytes of a line.
pub(crate) type Line = ArrayVec<u8, LONGEST_LINE>;

fn put_word(word: &[u8], line: &mut Line)
    requires { array_vec_len line.old + length word.now ≤ 192 }
    ensures { line.new.items ≡ line.old.items ++ word.now }
{
    line.try_extend_from_slice(word).unwrap();
}

/// Puts a number in base ten behind the text.
fn put_digits(number: usize, line: &mut Line)
    requires { array_vec_len line.old + 20 ≤ 192 }
    ensures text { line.new.items ≡ line.old.items ++ decimal number }
    ensures few { array_vec_len line.new ≤ array_vec_len line.old + 20 }
{
    if number < 10 {
        // nearly every number of a row
        line.push(b'0' + number as u8);
    } else {
        let mut digits = Buffer::new();
        put_word(digits.format(number).as_bytes(), line);
    }
}

/// The line of a word and these numbers, a space apart.
pub(crate) fn line_of(word: &[u8], numbers: &[usize]) -> Line
    requires word { length word.now ≤ 8 }
    requires numbers { length numbers.now ≤ 8 }
    ensures { result.items ≡ word.now ++ numbers_text numbers.now }
{
    let mut line = Line::new();
    put_word(word, &mut line);
    if let [first, rest @ ..] = numbers {
        put_digits(*first, &mut line);
        for number in rest {
            line.push(b' ');
            put_digits(*number, &mut line);
        }
    }
    line.push(b'\n');
    line
}

/// Copies a line into the first places of `out`, and answers its length.
pub(crate) fn copy_to(line: &[u8], out: &mut [u8]) -> Result<usize, JobFault>
    ensures { Written line.now out.old result out.new }
{
    let needed = line.len();
    if out.len() < needed {
        return Err(JobFault::NoRoom { needed });
    }
    out[0..needed].copy_from_slice(line);
    Ok(needed)
}
