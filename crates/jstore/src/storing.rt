ghost use Rattle.std.specs.Prelude.{◌≡◌, ◌≤◌, ◌<◌, ◌++◌, Err, IfOk, OnErr, OnOk, codes, decimal, false, map};
ghost use Rattle.std.specs.Fmt.{digit_glyph};
ghost use Rattle.jground.specs.jbase.FaultCauses.{Rose};
ghost use Rattle.joutput.specs.jio.TextOutput.{written, written_unit};
ghost use Rattle.joutput.specs.declared.jio.shelf.ShelfError.TheVariants.{Failed};
ghost use Rattle.jstore.specs.Folders.{all_below, class_path, files_below, place_of};
ghost use Rattle.jstore.specs.FileWrites.{StoresFront, seen, with_files};

use jground::jbase::Seq;
use jjob::{Text, stored_job};
use jmoving::{OutFile, RewrittenProgram};
use joutput::jio::{Shelf, ShelfError};
use jtasks::jstages::{text_in, units_in};
use std::alloc::{AllocError, Global};

/// A file that is to be stored.
#[derive(Drop)]
pub struct NewFile {
    pub path: Text,
    pub bytes: Seq<u8>,
}

// ---- paths

fn hex_digit(value: u16) -> u8
    requires { value < 16 }
    ensures { result ≡ digit_glyph false value }
{
    if value < 10 {
        b'0' + value as u8
    } else {
        b'a' + (value as u8 - 10)
    }
}

/// Puts a unit behind bytes, as texts are written in lines.
fn put_unit(unit: u16, out: &mut Seq<u8>) -> Result<(), AllocError>
    ensures { OnOk result (out.new ≡ out.old ++ written_unit unit) }
{
    if unit == 0x5c {
        out.extend(b"\\\\")?;
        return Ok(());
    }
    if 0x20 <= unit && unit <= 0x7e {
        out.push(unit as u8)?;
        return Ok(());
    }
    let first = hex_digit(unit / 4096);
    let second = hex_digit(unit / 256 % 16);
    let third = hex_digit(unit / 16 % 16);
    let fourth = hex_digit(unit % 16);
    out.extend(&[b'\\', b'u', first, second, third, fourth])?;
    Ok(())
}

/// Puts units behind bytes, as texts are written in lines.
fn put_units(units: &[u16], out: &mut Seq<u8>) -> Result<(), AllocError>
    ensures { OnOk result (out.new ≡ out.old ++ written units.now) }
{
    for unit in units {
        put_unit(*unit, out)?;
    }
    Ok(())
}

/// Puts the decimal digits of a number behind bytes.
fn put_number(number: u32, out: &mut Seq<u8>) -> Result<(), AllocError>
    ensures { OnOk result (out.new ≡ out.old ++ decimal number) }
{
    let mut digits = itoa::Buffer::new();
    out.extend(digits.format(number).as_bytes())?;
    Ok(())
}

/// Puts what stands behind the folder in the path of a class.
fn put_class(domain: u32, units: &[u16], out: &mut Seq<u8>) -> Result<(), AllocError>
    ensures { OnOk result (out.new ≡ out.old ++ place_of domain units.now) }
{
    out.extend(b"/d")?;
    put_number(domain, out)?;
    out.extend(b"/")?;
    put_units(units, out)?;
    out.extend(b".class")?;
    Ok(())
}

/// The bytes of the path of a class below a folder: that of its domain, and there its name, written as texts are.
fn class_bytes(alloc: Global, to: &str, domain: u32, name: &[u8]) -> Result<Seq<u8>, AllocError>
    ensures { IfOk result (λ path. path ≡ class_path to.now domain name.now) }
{
    let units = units_in(alloc, name)?;
    let mut out = Seq::from_slice(alloc, to.as_bytes())?;
    put_class(domain, units.as_slice(), &mut out)?;
    Ok(out)
}

/// The path of a class below a folder.
fn class_path(alloc: Global, to: &str, domain: u32, name: &[u8]) -> Result<Text, AllocError>
    ensures { IfOk result (λ path. path ≡ class_path to.now domain name.now) }
{
    let path = class_bytes(alloc, to, domain, name)?;
    text_in(alloc, path.as_slice())
}

/// The bytes of the path of the job in a folder.
fn job_bytes(alloc: Global, to: &str) -> Result<Seq<u8>, AllocError>
    ensures { IfOk result (λ path. path ≡ to.now ++ codes "/job") }
{
    let mut out = Seq::from_slice(alloc, to.as_bytes())?;
    out.extend(b"/job")?;
    Ok(out)
}

/// The path of the job in a folder.
fn job_path(alloc: Global, to: &str) -> Result<Text, AllocError>
    ensures { IfOk result (λ path. path ≡ to.now ++ codes "/job") }
{
    let path = job_bytes(alloc, to)?;
    text_in(alloc, path.as_slice())
}

// ---- files

/// Class files in their order as they are stored below a folder, and then the job of this text.
fn all_below(
    alloc: Global,
    to: &str,
    text: &str,
    files: Seq<OutFile>,
) -> Result<Seq<NewFile>, AllocError>
    ensures { IfOk result (λ made. map seen made ≡ all_below to.now text.now files) }
{
    let mut made = Seq::new(alloc);
    let mut paths = Seq::new(alloc);
    for file in files.into_vec() {
        let path = class_path(alloc, to, file.domain, file.name.as_slice())?;
        paths.push(path.copy(alloc)?)?;
        made.push(NewFile {
            path,
            bytes: file.bytes,
        })?;
    }
    let bytes = stored_job(alloc, text, paths.as_slice())?;
    let path = job_path(alloc, to)?;
    made.push(NewFile { path, bytes })?;
    Ok(made)
}

/// The files of a moved program below a folder, with the job of this text.
#[tactic(auto, unfolding(crate::specs::Folders::files_below))]
pub fn files_below(
    alloc: Global,
    to: &Text,
    text: &Text,
    program: &RewrittenProgram,
) -> Result<Seq<NewFile>, AllocError>
    ensures { IfOk result (λ made. map seen made ≡ files_below to.now text.now program.now) }
{
    let files = program.files(alloc)?;
    all_below(alloc, to.as_str(), text.as_str(), files)
}

/// Stores files one after the other, up to the first that fails.
pub fn store_all<S: Shelf>(
    alloc: Global,
    files: &[NewFile],
    shelf: &mut S,
) -> Result<(), ShelfError>
    ensures ok { OnOk result (S.held shelf.new ≡ with_files (map seen files.now) (S.held shelf.old)) }
    ensures err { OnErr result (StoresFront (map seen files.now) (S.held shelf.old) (S.held shelf.new)) }
    ensures reads { S.read_faults shelf.new ≡ S.read_faults shelf.old }
    ensures later { S.write_faults shelf.old ≤ S.write_faults shelf.new }
    ensures cause { result ≡ Err Failed → Rose (S.write_faults shelf.old) (S.write_faults shelf.new) }
{
    for file in files {
        match shelf.write(alloc, file.path.as_str(), file.bytes.as_slice()) {
            Ok(()) => {}
            Err(error) => return Err(error),
        }
    }
    Ok(())
}
