//! A row is appended to a file that others append to, and may replace.
ghost use Rattle.std.specs.Prelude.{◌≡◌, ◌∷◌, ◌++◌, length, Ok, OnOk, OnErr, IfErr, IfOk};
ghost use Rattle.keyline_files.specs.declared.device.Request.TheVariants.{Appends};
ghost use Rattle.keyline_files.specs.FileCalls.{AppendsRow, CutsBackAfter, Did, IsCause, LeavesFile, LocksNamed, Quietly, before_row, looks};

use crate::device::{FileDevice, Request};
use std::alloc::{AllocError, Global};
use std::io::ErrorKind;

/// How often a file that was replaced is opened again.
const TURNS: u16 = 10_000;

/// Opens and locks the file that the path names. If it was replaced before its lock was got, the
/// path is opened again. Nothing is written.
#[tactic(auto, using(crate::proofs::CallLemmas::quietly_more, crate::proofs::CallLemmas::quietly_none))]
pub fn lock_named<D: FileDevice>(device: &mut D, path: &[u8]) -> Result<(), ErrorKind>
    ensures quiet { Quietly (D.calls device.old) (D.calls device.new) }
    ensures cause { IfErr result (λ e. IsCause e (D.calls device.new)) }
    ensures named { OnOk result (LocksNamed path.now (D.calls device.old) (D.calls device.new)) }
{
    for _ in 0..TURNS {
        device.call(Request::Opens, path)?;
        device.call(Request::Locks, b"")?;
        if device.call(Request::Names, path)? == 1 {
            return Ok(());
        }
    }
    Err(ErrorKind::ResourceBusy)
}

/// What an append has looked at: the length of the file, and its last byte if it has one.
#[derive(Clone, Copy)]
struct Seen {
    len: u64,
    last: u64,
}

#[tactic(auto, using(crate::proofs::CallLemmas::quietly_more, crate::proofs::CallLemmas::quietly_none))]
fn look<D: FileDevice>(device: &mut D) -> Result<Seen, ErrorKind>
    ensures quiet { Quietly (D.calls device.old) (D.calls device.new) }
    ensures cause { IfErr result (λ e. IsCause e (D.calls device.new)) }
    ensures looks { IfOk result (λ seen. D.calls device.new
        ≡ looks seen.len seen.last ++ D.calls device.old) }
{
    let len = device.call(Request::Measures, b"")?;
    if len == 0 {
        return Ok(Seen { len, last: 0 });
    }
    if device.call(Request::HasHeader, b"")? != 1 {
        return Err(ErrorKind::InvalidData);
    }
    let last = device.call(Request::LastByte, b"")?;
    Ok(Seen { len, last })
}

/// The row, with what is missing before it.
fn text_of(alloc: Global, seen: Seen, row: &[u8]) -> Result<Vec<u8>, AllocError>
    ensures { IfOk result (λ text. text.items ≡ before_row seen.len seen.last ++ row.now) }
{
    let mut text = Vec::new(alloc);
    if seen.len == 0 {
        text.extend_from_slice(b"#V2\n")?;
    } else if seen.last != 10 {
        text.push(b'\n')?;
    }
    text.extend_from_slice(row)?;
    Ok(text)
}

/// One write. If it isn't whole, the file is cut back.
fn write_whole<D: FileDevice>(device: &mut D, text: &[u8]) -> Result<(), ErrorKind>
    ensures whole { OnOk result (D.calls device.new
        ≡ Did Appends text.now (Ok (length text.now)) ∷ D.calls device.old) }
    ensures cause { IfErr result (λ e. IsCause e (D.calls device.new)) }
    ensures refused { OnErr result (CutsBackAfter (D.calls device.old) (D.calls device.new)) }
{
    let why = match device.call(Request::Appends, text) {
        Ok(count) if count == text.len() as u64 => return Ok(()),
        Ok(_) => ErrorKind::WriteZero,
        Err(why) => why,
    };
    let _ = device.call(Request::CutsBack, b"");
    Err(why)
}

/// Appends a row to the file of this path. It has to be closed then, which gives up its lock.
pub fn append_row<D: FileDevice>(
    alloc: Global,
    device: &mut D,
    path: &[u8],
    row: &[u8],
) -> Result<(), ErrorKind>
    ensures appended { OnOk result (AppendsRow path.now row.now (D.calls device.old)
        (D.calls device.new)) }
    ensures cause { IfErr result (λ e. IsCause e (D.calls device.new)) }
    ensures refused { OnErr result (LeavesFile (D.calls device.old) (D.calls device.new)) }
{
    lock_named(device, path)?;
    let seen = look(device)?;
    let text = match text_of(alloc, seen, row) {
        Ok(text) => text,
        Err(_) => return Err(ErrorKind::OutOfMemory),
    };
    write_whole(device, text.as_slice())
}
