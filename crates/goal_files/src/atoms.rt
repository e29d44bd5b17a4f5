ghost use Rattle.std.specs.Prelude.{◌≡◌, ◌<◌, [], map, All, IfOk, MatchOption, None, string_bytes};
ghost use Rattle.std.specs.Option.{option_map};
ghost use Rattle.std.specs.Str.{str_to_ascii_lowercase};
ghost use Rattle.goal_files.specs.Lines.{IsGoalLine};
ghost use Rattle.goal_files.specs.Goals.{HasNoAtoms};
ghost use Rattle.goal_files.specs.Reading.{IsAsciiPiece, plain_reading, whole_atoms, with_close, with_marks, with_name, with_open, piece_marks};

use crate::pieces::{Piece, begins_name, lower_case, split_piece};
use std::alloc::{AllocError, Global};

/// What was read of a line.
#[derive(Drop)]
pub(crate) struct Reading {
    /// The atoms that are closed, each with its predicate and then its objects.
    atoms: Vec<Vec<String>>,
    /// What was read of the atom that is open.
    names: Option<Vec<String>>,
}

impl Reading {
    fn new(alloc: Global) -> Reading
        ensures { plain_reading result ≡ record { atoms = []; names = None } }
    {
        Reading {
            atoms: Vec::new(alloc),
            names: None,
        }
    }

    /// With a bracket that opens an atom, where none is open.
    fn with_open(self, alloc: Global) -> Option<Reading>
        ensures { let old = plain_reading self in
            option_map plain_reading result ≡ with_open old.atoms old.names }
    {
        match self.names {
            None => Some(Reading {
                atoms: self.atoms,
                names: Some(Vec::new(alloc)),
            }),
            Some(_) => None,
        }
    }

    /// With a bracket that closes an atom, where one with a name is open.
    fn with_close(self) -> Result<Option<Reading>, AllocError>
        ensures { let old = plain_reading self in
            IfOk result (λ found. option_map plain_reading found ≡ with_close old.atoms old.names) }
    {
        let Reading { mut atoms, names } = self;
        match names {
            Some(names) => {
                if names.is_empty() {
                    return Ok(None);
                }
                atoms.push(names)?;
                Ok(Some(Reading { atoms, names: None }))
            }
            None => Ok(None),
        }
    }

    /// With a name, where an atom is open.
    fn with_name(self, alloc: Global, run: &[u8]) -> Result<Option<Reading>, AllocError>
        requires { All (λ b. b < 128) run.now }
        ensures { let old = plain_reading self in
            IfOk result (λ found. option_map plain_reading found
            ≡ with_name (str_to_ascii_lowercase run.now) old.atoms old.names) }
    {
        let Reading { atoms, names } = self;
        match names {
            Some(mut names) => {
                if !begins_name(run) {
                    return Ok(None);
                }
                names.push(lower_case(alloc, run)?)?;
                Ok(Some(Reading {
                    atoms,
                    names: Some(names),
                }))
            }
            None => Ok(None),
        }
    }

    /// With one piece more, where it may follow.
    fn with_piece(self, alloc: Global, piece: Piece<'_>) -> Result<Option<Reading>, AllocError>
        requires { IsAsciiPiece piece }
        ensures { IfOk result (λ found. option_map plain_reading found
            ≡ with_marks (plain_reading self) (piece_marks piece.entry)) }
    {
        match piece {
            Piece::Blank => Ok(Some(self)),
            Piece::Open => Ok(self.with_open(alloc)),
            Piece::Close => self.with_close(),
            Piece::Run(run) => self.with_name(alloc, run),
        }
    }

    /// The atoms, where there is one and none is open.
    fn whole_atoms(self) -> Option<Vec<Vec<String>>>
        ensures { let old = plain_reading self in
            option_map (λ v. map (λ a. map string_bytes a.items) v.items) result
            ≡ whole_atoms old.atoms old.names }
    {
        let Reading { atoms, names } = self;
        if names.is_some() || atoms.is_empty() {
            return None;
        }
        Some(atoms)
    }
}

/// The atoms that a line spells, each as its predicate and then its objects.
pub(crate) fn read_atoms(alloc: Global, line: &[u8]) -> Result<Option<Vec<Vec<String>>>, AllocError>
    ensures { IfOk result (λ found. MatchOption found
        (HasNoAtoms line.now)
        (λ atoms. IsGoalLine line.now (map (λ a. map string_bytes a.items) atoms.items))) }
{
    let mut reading = Reading::new(alloc);
    let mut rest = line;
    while let Some((piece, behind)) = split_piece(rest) {
        match reading.with_piece(alloc, piece)? {
            Some(more) => reading = more,
            None => return Ok(None),
        }
        rest = behind;
    }
    if !rest.is_empty() {
        return Ok(None);
    }
    Ok(reading.whole_atoms())
}
