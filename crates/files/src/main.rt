// Many holder's files from standard input, each behind its length of two bytes, and what is printed for each.
#![tactic(auto)]

ghost use Rattle.std.specs.Prelude.{◌≤◌, length, IfSome};

use std::io::{self, Read};

// Prints a file.
fn print(rt: &impl Print, file: &[u8]) -> io::Result<()>
    requires { length file.now ≤ 4096 }
{
    let mut text = [0u8; 512];
    let count = holder_file::print_file(file, &mut text);
    rt.write_all(&text[..count])
}

// The length of the next file, which is read to the front of the buffer; none where there is no whole file more, or the buffer does not hold it.
fn next<R: Read>(source: &mut R, buffer: &mut [u8]) -> Option<usize>
    ensures { IfSome result (λ len. len ≤ length buffer.new) }
{
    let mut size = [0u8; 2];
    source.read_exact(&mut size).ok()?;
    let len = usize::from(u16::from_le_bytes(size));
    source.read_exact(buffer.get_mut(..len)?).ok()?;
    Some(len)
}

// A file whose text cannot be written is passed over.
fn main(rt: HostRuntime) {
    let mut file = [0u8; 4096];
    for _ in 0..10_000 {
        let Some(len) = next(&mut rt.stdin(), &mut file) else {
            break;
        };
        let _ = print(&rt, &file[..len]);
    }
}
