ghost use Rattle.std.specs.Prelude.{◌≡◌, IfSome, length};
ghost use Rattle.jshow.specs.CommandAnswers.{Shows, listed};
ghost use Rattle.jshow.specs.CheckCounts.{checked_line, methods_in, methods_of};

use crate::status::Status;
use joutput::jio::{Part, Sink, write_line};
use jresolution::jprogram::{CodePart, has_code};

/// How many methods of a class have code.
fn methods_in(part: &CodePart) -> usize
    ensures { result ≡ methods_in part.now }
{
    let methods = part.class.parts().methods.as_slice();
    let mut count: usize = 0;
    for method in methods {
        if has_code(method) {
            count += 1;
        }
    }
    count
}

/// How many methods of all classes have code; none where the number is above 64 bits.
fn methods_of(parts: &[CodePart]) -> Option<u64>
    ensures { IfSome result (λ n. n ≡ methods_of parts.now) }
{
    let mut count: u64 = 0;
    for part in parts {
        let Some(sum) = count.checked_add(methods_in(part) as u64) else {
            return None;
        };
        count = sum;
    }
    Some(count)
}

/// Writes the line of a program that is checked.
fn put_checked<K: Sink>(classes: u64, methods: u64, out: &mut K) -> Status
    ensures { Shows (listed (checked_line classes methods)) result K.out K.faults out.old out.new }
{
    let parts = [
        Part::Plain("checked "),
        Part::Number(classes),
        Part::Plain(" classes "),
        Part::Number(methods),
        Part::Plain(" methods"),
    ];
    match write_line(out, &parts) {
        Ok(()) => Status::Finished,
        Err(_) => Status::WriteFault,
    }
}

/// Writes how much of a program was checked. Where its methods can't be counted in 64 bits, the answer is that no memory was left.
pub fn show_checked<K: Sink>(parts: &[CodePart], out: &mut K) -> Status
    ensures { Shows (listed (checked_line (length parts.now) (methods_of parts.now))) result K.out K.faults out.old out.new }
{
    match methods_of(parts) {
        Some(methods) => put_checked(parts.len() as u64, methods, out),
        None => Status::OutOfMemory,
    }
}
