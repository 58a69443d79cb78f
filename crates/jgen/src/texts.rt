ghost use Rattle.std.specs.Prelude.{◌≡◌, ◌≤◌, ◌++◌, IfOk, OnOk, decimal, length};
ghost use Rattle.jgen.specs.GeneratedClasses.{name};
ghost use Rattle.jgen.specs.GeneratedFiles;
ghost use Rattle.jgen.specs.ProofNames;
ghost use Rattle.jgen.specs.GeneratedFiles.{base, grant, grants, path, source, sources};

use crate::draws::Kind;
use jground::jbase::Seq;
use std::alloc::{AllocError, Global};

/// Puts the decimal digits of a number behind bytes.
fn put_number(number: u32, out: &mut Seq<u8>) -> Result<(), AllocError>
    ensures { OnOk result (out.new ≡ out.old ++ decimal number) }
{
    let mut digits = itoa::Buffer::new();
    out.extend(digits.format(number).as_bytes())
}

/// Puts the name of a class behind bytes.
fn put_name(i: u32, out: &mut Seq<u8>) -> Result<(), AllocError>
    ensures { OnOk result (out.new ≡ out.old ++ name i) }
{
    out.extend(b"G")?;
    put_number(i, out)
}

/// The name of a class.
pub fn name_of(alloc: Global, i: u32) -> Result<Seq<u8>, AllocError>
    ensures name { IfOk result (λ text. text ≡ name i) }
    ensures short { IfOk result (λ text. length text ≤ 0xff) }
{
    let mut out = Seq::new(alloc);
    put_name(i, &mut out)?;
    Ok(out)
}

/// Puts the path of a class file behind bytes.
fn put_path(i: u32, out: &mut Seq<u8>) -> Result<(), AllocError>
    ensures { OnOk result (out.new ≡ out.old ++ path i) }
{
    put_name(i, out)?;
    out.extend(b".class")
}

/// The path of a class file.
pub fn path_of(alloc: Global, i: u32) -> Result<Seq<u8>, AllocError>
    ensures { IfOk result (λ text. text ≡ path i) }
{
    let mut out = Seq::new(alloc);
    put_path(i, &mut out)?;
    Ok(out)
}

/// Puts behind bytes where the class of a code source lies.
fn put_base(i: u32, out: &mut Seq<u8>) -> Result<(), AllocError>
    ensures { OnOk result (out.new ≡ out.old ++ base i) }
{
    out.extend(b"file:/g")?;
    put_number(i, out)?;
    out.extend(b"/")
}

/// Puts the lines of a code source and its class behind others.
fn put_source(i: u32, out: &mut Seq<u8>) -> Result<(), AllocError>
    ensures { OnOk result (out.new ≡ out.old ++ source i) }
{
    out.extend(b"code ")?;
    put_base(i, out)?;
    out.extend(b"\nclass ")?;
    put_path(i, out)?;
    out.extend(b"\n")
}

fn put_sources(size: u32, out: &mut Seq<u8>) -> Result<(), AllocError>
    ensures { OnOk result (out.new ≡ out.old ++ sources 0 size) }
{
    for i in 0..size {
        put_source(i, out)?;
    }
    Ok(())
}

/// The text of the job of so many classes.
pub fn job_text(alloc: Global, size: u32) -> Result<Seq<u8>, AllocError>
    ensures { IfOk result (λ text. text ≡ GeneratedFiles.job_text size) }
{
    let mut out = Seq::new(alloc);
    out.extend(b"policy gen.policy\n")?;
    put_sources(size, &mut out)?;
    out.extend(b"main G0\n")?;
    Ok(out)
}

/// Puts the line that grants the permission to a code source.
fn put_grant(i: u32, out: &mut Seq<u8>) -> Result<(), AllocError>
    ensures { OnOk result (out.new ≡ out.old ++ grant i) }
{
    out.extend(b"grant codeBase \"")?;
    put_base(i, out)?;
    out.extend(b"\" { permission java.util.PropertyPermission \"p\", \"read\"; };\n")
}

fn put_granted(kind: Kind, i: u32, out: &mut Seq<u8>) -> Result<(), AllocError>
    ensures { OnOk result (out.new ≡ out.old ++ ProofNames.granted kind i) }
{
    if !kind.granted {
        return Ok(());
    }
    put_grant(i, out)
}

/// The text of the policy of classes of these kinds.
pub fn policy_text(alloc: Global, kinds: &[Kind]) -> Result<Seq<u8>, AllocError>
    requires { length kinds.now ≤ 1000 }
    ensures { IfOk result (λ text. text ≡ grants 0 kinds.now) }
{
    let mut out = Seq::new(alloc);
    for (i, kind) in kinds.iter().enumerate() {
        put_granted(*kind, i as u32, &mut out)?;
    }
    Ok(out)
}
