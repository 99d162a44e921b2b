// What is made of an entry in the folder.
ghost use Rattle.std.specs.Prelude.{◌≡◌, IfErr, IsTrue, OnOk};
ghost use Rattle.host_folders.specs.HostNames.{text_beside as beside};
ghost use Rattle.host_folders.specs.Path.{IsSafePath};
ghost use Rattle.volume_extract.specs.Items.{found_both, found_file, found_folder};
ghost use Rattle.volume_extract.specs.Looked.{body_view};
ghost use Rattle.volume_extract.specs.Made.{after_item};
ghost use Rattle.volume_extract.specs.Progress.{IsNotMadeOf};

use crate::body::Body;
use crate::error::ExtractError;
use host_folders::{Folder, text_beside};
use std::alloc::Global;

// Makes a folder.
fn make_folder<O: Folder>(folder: &mut O, host: &str) -> Result<(), ExtractError>
    requires { IsSafePath host.now }

    ensures same { (O.state folder.new).honest ≡ (O.state folder.old).honest }
    ensures made { IsTrue (O.state folder.old).honest → OnOk result
        (O.state folder.new ≡ after_item host.now found_folder (O.state folder.old)) }
    ensures failed { IfErr result (IsNotMadeOf O.state O.may_fail host.now found_folder folder.old
        (O.state folder.new)) }
{
    match folder.make_folder(host) {
        Ok(()) => Ok(()),
        Err(failure) => Err(ExtractError::Folder(failure)),
    }
}

// Puts one file into the folder.
fn put<O: Folder>(folder: &mut O, host: &str, bytes: &[u8]) -> Result<(), ExtractError>
    requires { IsSafePath host.now }

    ensures same { (O.state folder.new).honest ≡ (O.state folder.old).honest }
    ensures made { IsTrue (O.state folder.old).honest → OnOk result
        (O.state folder.new ≡ after_item host.now (found_file bytes.now) (O.state folder.old)) }
    ensures failed { IfErr result (IsNotMadeOf O.state O.may_fail host.now (found_file bytes.now) folder.old
        (O.state folder.new)) }
{
    match folder.put(host, bytes) {
        Ok(()) => Ok(()),
        Err(failure) => Err(ExtractError::Folder(failure)),
    }
}

// Puts a file into the folder, and beside it its readable form.
fn put_both<O: Folder>(
    alloc: Global,
    folder: &mut O,
    host: &str,
    file: &[u8],
    text: &[u8],
) -> Result<(), ExtractError>
    requires safe { IsSafePath host.now }
    requires text_safe { IsSafePath (beside host.now) }

    ensures same { (O.state folder.new).honest ≡ (O.state folder.old).honest }
    ensures made { IsTrue (O.state folder.old).honest → OnOk result
        (O.state folder.new ≡ after_item host.now (found_both file.now text.now) (O.state folder.old)) }
    ensures failed { IfErr result (IsNotMadeOf O.state O.may_fail host.now (found_both file.now text.now) folder.old
        (O.state folder.new)) }
{
    let path = text_beside(alloc, host)?;
    if let Err(failure) = folder.put(host, file) {
        return Err(ExtractError::Folder(failure));
    }
    match folder.put(path.as_str(), text) {
        Ok(()) => Ok(()),
        Err(failure) => Err(ExtractError::Folder(failure)),
    }
}

/// Makes a folder, puts a file into the folder, its readable form beside it or in its place, or does nothing.
///
/// # Errors
/// `Folder` where a call of the folder fails; `Memory`.
pub fn make<O: Folder>(
    alloc: Global,
    folder: &mut O,
    host: &str,
    body: &Body,
) -> Result<(), ExtractError>
    requires safe { IsSafePath host.now }
    requires text_safe { IsSafePath (beside host.now) }

    ensures same { (O.state folder.new).honest ≡ (O.state folder.old).honest }
    ensures made { IsTrue (O.state folder.old).honest → OnOk result
        (O.state folder.new ≡ after_item host.now (body_view body.now) (O.state folder.old)) }
    ensures failed { IfErr result (IsNotMadeOf O.state O.may_fail host.now (body_view body.now) folder.old
        (O.state folder.new)) }
{
    match body {
        Body::Folder => make_folder(folder, host),
        Body::File(bytes) | Body::Text(bytes) => put(folder, host, bytes),
        Body::Both(bytes, text) => put_both(alloc, folder, host, bytes, text),
        Body::Unreadable => Ok(()),
    }
}
