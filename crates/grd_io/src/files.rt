ghost use Rattle.std.specs.Prelude.{◌≡◌, ◌-◌, ◌<◌, ◌≤◌, [], ◌++◌, length, min, Some, None, IsSome, IfOk, IfSome, OnOk, OnErr, unwrap_or};
ghost use Rattle.std.specs.Option.{option_map};
ghost use Rattle.grd_io.specs.Bytes.{IsReadAt};
ghost use Rattle.grd_io.specs.Devices.{file_of, plain_files, IsChanged, IsFirstOf};

use crate::whole::{front_of, rest_of};
use grd_base::OutOfMemory;

/// The bytes of the first file of this name.
pub(crate) fn find_file<'a>(files: &'a [(String, Vec<u8>)], name: &str) -> Option<&'a [u8]>
    ensures { option_map (λ bytes. bytes.now) result ≡ file_of (plain_files files.now) name.now }
{
    for file in files {
        if name == file.0.as_str() {
            return Some(file.1.as_slice());
        }
    }
    None
}

/// Copies at most `most` bytes that a file has from a place on, and answers how many.
pub(crate) fn copy_from(bytes: &[u8], from: u64, into: &mut [u8], most: usize) -> usize
    requires within { most ≤ length into.old }
    requires some { 0 < length into.old → 0 < most }
    ensures read { IsReadAt (Some (Some bytes.now)) from (length into.old) into.new result }
    ensures most { result ≡ min most (length bytes.now - from) }
{
    if from >= bytes.len() as u64 {
        return 0;
    }
    let rest = rest_of(bytes, from as usize);
    let n = rest.len().min(most);
    into[..n].copy_from_slice(&rest[..n]);
    n
}

/// The place of the first file of this name.
fn place_of(files: &[(String, Vec<u8>)], name: &str) -> Option<usize>
    ensures found { IfSome result (IsFirstOf (plain_files files.now) name.now) }
    ensures none { result ≡ None → file_of (plain_files files.now) name.now ≡ None }
{
    let mut place = 0;
    while place < files.len() {
        if name == files[place].0.as_str() {
            return Some(place);
        }
        place += 1;
    }
    None
}

/// Makes the file of this name empty.
pub(crate) fn empty_file(files: &mut Vec<(String, Vec<u8>)>, name: &str) -> Result<(), OutOfMemory>
    ensures made { OnOk result (IsChanged (plain_files files.old.items) (plain_files files.new.items) name.now []) }
    ensures refused { OnErr result (plain_files files.new.items ≡ plain_files files.old.items) }
{
    match place_of(files, name) {
        Some(place) => {
            files[place].1.clear();
            Ok(())
        }
        None => add_file(files, name),
    }
}

/// Adds an empty file of a new name.
fn add_file(files: &mut Vec<(String, Vec<u8>)>, name: &str) -> Result<(), OutOfMemory>
    requires { file_of (plain_files files.old.items) name.now ≡ None }
    ensures made { OnOk result (IsChanged (plain_files files.old.items) (plain_files files.new.items) name.now []) }
    ensures refused { OnErr result (plain_files files.new.items ≡ plain_files files.old.items) }
{
    let alloc = *files.allocator();
    let name = String::from_str(alloc, name)?;
    files.push((name, Vec::new(alloc)))?;
    Ok(())
}

/// Appends a piece to the file of this name.
pub(crate) fn extend_file(
    files: &mut Vec<(String, Vec<u8>)>,
    name: &str,
    piece: &[u8],
) -> Result<(), OutOfMemory>
    requires { IsSome (file_of (plain_files files.old.items) name.now) }
    ensures grown { OnOk result (IsChanged (plain_files files.old.items) (plain_files files.new.items) name.now
        (unwrap_or (file_of (plain_files files.old.items) name.now) [] ++ piece.now)) }
    ensures refused { OnErr result (plain_files files.new.items ≡ plain_files files.old.items) }
{
    if let Some(place) = place_of(files, name) {
        files[place].1.extend_from_slice(piece)?;
    }
    Ok(())
}
