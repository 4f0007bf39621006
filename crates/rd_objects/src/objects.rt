//! All objects of a session.
ghost use Rattle.std.specs.Prelude.{◌≡◌, ◌<◌, ◌≤◌, length, IfOk, IfErr, OnErr};
ghost use Rattle.std.specs.List.{list_all};
ghost use Rattle.rd_base.specs.Cells.{HasColours};
ghost use Rattle.rd_objects.specs.Things.{is_numbered, is_inside};
ghost use Rattle.rd_objects.specs.Sound.{AreCodes};
ghost use Rattle.rd_objects.specs.declared.fault.ObjectFault.TheVariants.{TooMany};

use crate::fault::ObjectFault;
use crate::run::{Run, RunKind, Spec};
use crate::table::Table;
use crate::text::{LONGEST, Text};
use rd_base::limits::{FACES, SPECS, STRINGS, TABLES};
use rd_base::{Ch, Face, ListOf, Memory};
use std::alloc::Global;
use std::marker::Model;

/// All objects that were made, numbered from 0 in each sort. An object never changes.
#[derive(Drop)]
pub struct Objects {
    alloc: Global,
    strings: ListOf<Text>,
    specs: ListOf<Spec>,
    faces: ListOf<Face>,
    tables: ListOf<Table>,
}

impl Model for Objects {
    ghost use Rattle.rd_objects.specs.Things.{ObjectLists};
    ghost use Rattle.rd_objects.specs.Sound.{AreRight};

    ghost Value = { ObjectLists };

    ghost view = { λ o. record { strings = o.strings; specs = o.specs; faces = o.faces; tables = o.tables } };

    ghost invariant = { λ o. AreRight (record { strings = o.strings; specs = o.specs; faces = o.faces; tables = o.tables }) };
}

impl Objects {
    ghost use Rattle.std.specs.Prelude.{◌≡◌, ◌≤◌, length, Some, IfOk, MatchOption, slice_get};
    ghost use Rattle.rd_objects.specs.Things.{nothing_made, is_spec_made, string_fault, spec_fault, full_fault, string_added, spec_added, face_added, table_added, IsSmallSpec, Adds};
    ghost use Rattle.rd_objects.specs.Sound.{AreObjects, IsClosed, Extends};

    /// No object. It takes no memory.
    pub fn new(alloc: Global) -> Result<Objects, Memory>
        ensures { IfOk result (λ objects. objects ≡ nothing_made) }
    {
        Ok(Objects {
            alloc,
            strings: ListOf::new(alloc),
            specs: ListOf::new(alloc),
            faces: ListOf::new(alloc),
            tables: ListOf::new(alloc),
        })
    }

    /// Makes a string of these characters and runs, and answers its number. The first of these faults counts, and each
    /// changes nothing: NoObject, where a run names a face or a spec that was not made; OutOfRange, where a run does not
    /// lie in the string; TooLong, where the string has more than 4,096 characters; TooMany, where 4,096 strings were made.
    /// It costs a look at each character and a copy of the characters and the runs.
    pub fn add_string(&mut self, text: &[Ch], runs: &[Run]) -> Result<u32, ObjectFault>
        ensures adds { Adds result (string_fault self.old text.now runs.now) (length self.old.strings) self.old self.new (string_added self.old text.now runs.now) }
        ensures extends { Extends self.old self.new }
    {
        if !are_made(runs, self.faces.len(), self.specs.len()) {
            return Err(ObjectFault::NoObject);
        }
        if !are_inside(runs, text.len()) {
            return Err(ObjectFault::OutOfRange);
        }
        if text.len() > LONGEST {
            return Err(ObjectFault::TooLong);
        }
        let number = next_number(&self.strings, STRINGS)?;
        characters_have_codes(text);
        let text = Text::new(self.alloc, text, runs, self.faces.as_slice())?;
        self.strings.push(text)?;
        Ok(number)
    }

    /// Makes a display spec, of at most 400 columns, and answers its number. NoObject comes exactly where it names a string
    /// that was not made, and else TooMany exactly where 4,096 specs were made. The cost is constant.
    pub fn add_spec(&mut self, spec: Spec) -> Result<u32, ObjectFault>
        requires { IsSmallSpec spec }
        ensures adds { Adds result (spec_fault self.old spec) (length self.old.specs) self.old self.new (spec_added self.old spec) }
        ensures extends { Extends self.old self.new }
    {
        if !self.names_made(spec) {
            return Err(ObjectFault::NoObject);
        }
        let number = next_number(&self.specs, SPECS)?;
        self.specs.push(spec)?;
        Ok(number)
    }

    /// Makes a face, and answers its number. TooMany comes exactly where 1,024 faces were made. The cost is constant.
    pub fn add_face(&mut self, face: Face) -> Result<u32, ObjectFault>
        ensures adds { Adds result (full_fault FACES (length self.old.faces)) (length self.old.faces) self.old self.new (face_added self.old face) }
        ensures extends { Extends self.old self.new }
    {
        let number = next_number(&self.faces, FACES)?;
        faces_have_colours(face);
        self.faces.push(face)?;
        Ok(number)
    }

    /// Makes a display table, and answers its number. TooMany comes exactly where 64 tables were made. The cost is constant.
    pub fn add_table(&mut self, table: Table) -> Result<u32, ObjectFault>
        ensures adds { Adds result (full_fault TABLES (length self.old.tables)) (length self.old.tables) self.old self.new (table_added self.old table) }
        ensures extends { Extends self.old self.new }
    {
        let number = next_number(&self.tables, TABLES)?;
        table.tables_are_valid();
        self.tables.push(table)?;
        Ok(number)
    }

    /// The string of a number, and None exactly where it was not made. The cost is constant.
    pub fn string(&self, number: u32) -> Option<&Text>
        ensures { MatchOption result (length self.now.strings ≤ number) (λ text. slice_get self.now.strings number ≡ Some text.now) }
    {
        self.strings.as_slice().get(number as usize)
    }

    /// The spec of a number, and None exactly where it was not made. The cost is constant.
    pub fn spec(&self, number: u32) -> Option<Spec>
        ensures { result ≡ slice_get self.now.specs number }
    {
        self.specs.as_slice().get(number as usize).copied()
    }

    /// The face of a number, and None exactly where it was not made. The cost is constant.
    pub fn face(&self, number: u32) -> Option<Face>
        ensures { result ≡ slice_get self.now.faces number }
    {
        self.faces.as_slice().get(number as usize).copied()
    }

    /// The table of a number, and None exactly where it was not made. The cost is constant.
    pub fn table(&self, number: u32) -> Option<&Table>
        ensures { MatchOption result (length self.now.tables ≤ number) (λ table. slice_get self.now.tables number ≡ Some table.now) }
    {
        self.tables.as_slice().get(number as usize)
    }

    /// All objects are sound, there are no more than there may be, and what they name was made. The call does nothing.
    pub fn objects_are_right(&self)
        ensures sound { AreObjects self.now }
        ensures closed { IsClosed self.now }
    {
        let _strings = &self.strings;
    }

    /// Whether the string that a spec names was made.
    fn names_made(&self, spec: Spec) -> bool
        ensures { result ≡ is_spec_made self.now spec }
    {
        match spec {
            Spec::Text(string) => (string as usize) < self.strings.len(),
            Spec::Width(_) | Spec::Align(_) => true,
        }
    }
}

/// Each face has colours in their range. The call does nothing.
fn faces_have_colours(face: Face)
    ensures { HasColours face }
{
    let _colour = face.fg;
}

/// Each character is a scalar value or a raw byte. The call looks at each, takes no memory and does nothing.
pub fn characters_have_codes(text: &[Ch])
    ensures { AreCodes text.now }
{
    for ch in text {
        ch.code();
    }
}

/// Whether each run names a face or a spec among so many.
fn are_made(runs: &[Run], faces: usize, specs: usize) -> bool
    ensures { result ≡ list_all (λ run. is_numbered run.kind faces specs run.value) runs.now }
{
    runs.iter().all(|run| match run.kind {
        RunKind::Face => (run.value as usize) < faces,
        RunKind::Display => (run.value as usize) < specs,
    })
}

/// Whether each run lies in a string of this length.
fn are_inside(runs: &[Run], size: usize) -> bool
    ensures { result ≡ list_all (is_inside size) runs.now }
{
    runs.iter()
        .all(|run| run.from <= run.to && run.to as usize <= size)
}

/// The number of the next object of a list that has at most so many. TooMany comes exactly where it has them.
fn next_number<T>(list: &ListOf<T>, most: u32) -> Result<u32, ObjectFault>
    ensures number { IfOk result (λ number. number ≡ length list.now) }
    ensures few { IfOk result (λ number. number < most) }
    ensures full { OnErr result (most ≤ length list.now) }
    ensures fault { IfErr result (λ fault. fault ≡ TooMany) }
{
    if list.len() >= most as usize {
        return Err(ObjectFault::TooMany);
    }
    Ok(list.len() as u32)
}
