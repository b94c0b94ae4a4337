// The holder program: reads a holder's file from standard input, at most 4,096 bytes, and prints what became of the dealing.
#![tactic(auto)]

ghost use Rattle.std.specs.Prelude.{◌≡◌, ◌≤◌, length, IfOk};
ghost use Rattle.holder_file.specs.Text.{file_text};

use std::io::{self, Read};

// Reads until the buffer is full, the input ends or a read fails, and gives how many bytes there are.
fn read<R: Read>(source: &mut R, buffer: &mut [u8]) -> io::Result<usize>
    ensures { IfOk result (λ len. len ≤ length buffer.new) }
{
    let mut len = 0;
    while len < buffer.len() {
        match source.read(&mut buffer[len..])? {
            0 => break,
            more => len += more,
        }
    }
    Ok(len)
}

// Writes what is printed of the file, and says so where it cannot.
fn write(rt: &(impl Print + Eprint), file: &[u8], text: &[u8])
    requires { text.now ≡ file_text file.now }
{
    if rt.write_all(text).is_err() {
        let _ = rt.eprintln("holder: cannot write");
    }
}

// Prints a file.
fn print(rt: &(impl Print + Eprint), file: &[u8])
    requires { length file.now ≤ 4096 }
{
    let mut text = [0u8; 512];
    let count = holder_file::print_file(file, &mut text);
    write(rt, file, &text[..count]);
}

fn main(rt: HostRuntime) {
    let mut file = [0u8; 4096];
    match read(&mut rt.stdin(), &mut file) {
        Ok(len) => print(&rt, &file[..len]),
        Err(_) => {
            let _ = rt.eprintln("holder: cannot read");
        }
    }
}
