//! Strings with faces and display specs.
ghost use Rattle.std.specs.Prelude.{◌≡◌, IfOk, Option, slice_index_or};
ghost use Rattle.rd_base.specs.Faces.{plain};
ghost use Rattle.rd_base.specs.Lists.{is_between};
ghost use Rattle.rd_objects.specs.Texts.{runs_by, face_by, spec_by, given_at};
ghost use Rattle.rd_objects.specs.declared.run.Run.{Run};

use crate::run::{Run, RunKind, RunOf};
use rd_base::limits::STRING_CHARACTERS;
use rd_base::{Ch, Face, ListOf, Memory};
use std::alloc::Global;
use std::marker::Model;

/// The most characters of a string.
pub const LONGEST: usize = STRING_CHARACTERS as usize;

/// A string of at most 4,096 characters, and the runs over it.
#[derive(Drop)]
pub struct Text {
    chars: ListOf<Ch>,
    faces: ListOf<RunOf<Face>>,
    specs: ListOf<RunOf<u32>>,
}

impl Model for Text {
    ghost use Rattle.std.specs.Prelude.{◌≤◌, length};
    ghost use Rattle.rd_objects.specs.Texts.{TextValue};
    ghost use Rattle.rd_base.specs.declared.limits.TheConstants.{STRING_CHARACTERS};

    ghost Value = { TextValue };

    ghost view = { λ text. record { chars = text.chars; faces = text.faces; specs = text.specs } };

    ghost invariant = { λ text. length text.chars ≤ STRING_CHARACTERS };
}

impl Text {
    ghost use Rattle.std.specs.Prelude.{◌≡◌, ◌<◌, ◌≤◌, length, slice_get, Some, IfOk};
    ghost use Rattle.rd_objects.specs.Texts.{text_of, face_of, spec_of};

    /// A string of these characters, with the faces that its runs name. It costs a copy of both.
    pub(crate) fn new(
        alloc: Global,
        chars: &[Ch],
        runs: &[Run],
        faces: &[Face],
    ) -> Result<Text, Memory>
        requires { length chars.now ≤ STRING_CHARACTERS }
        ensures { IfOk result (λ text. text ≡ text_of chars.now runs.now faces.now) }
    {
        let chars = ListOf::from_slice(alloc, chars)?;
        let faces = runs_of(alloc, runs, |run| face_given(run, faces))?;
        let specs = runs_of(alloc, runs, |run| spec_given(run))?;
        Ok(Text {
            chars,
            faces,
            specs,
        })
    }

    /// How many characters there are. The cost is constant.
    pub fn len(&self) -> u32
        ensures { result ≡ length self.now.chars }
    {
        self.chars.len() as u32
    }

    /// The character at a place, counted from 0. The cost is constant.
    pub fn ch(&self, i: u32) -> Ch
        requires { i < length self.now.chars }
        ensures { slice_get self.now.chars i ≡ Some result }
    {
        self.chars.at(i as usize)
    }

    /// The characters. The cost is constant.
    pub fn chars(&self) -> &[Ch]
        ensures { result.now ≡ self.now.chars }
    {
        self.chars.as_slice()
    }

    /// The face at a place, counted from 0: that of the last run of faces that covers it, and the plain face where there is
    /// none. It costs a look at each run.
    pub fn face(&self, i: u32) -> Face
        requires { i < length self.now.chars }
        ensures { result ≡ face_of self.now i }
    {
        last_over(self.faces.as_slice(), i).unwrap_or(Face::PLAIN)
    }

    /// The number of the display spec at a place, counted from 0: that of the last run of specs that covers it, and None
    /// exactly where there is none. It costs a look at each run.
    pub fn spec(&self, i: u32) -> Option<u32>
        requires { i < length self.now.chars }
        ensures { result ≡ spec_of self.now i }
    {
        last_over(self.specs.as_slice(), i)
    }
}

/// What the last run that covers a place gives.
fn last_over<T: Copy>(runs: &[RunOf<T>], i: u32) -> Option<T>
    ensures { result ≡ given_at runs.now i }
{
    runs.iter()
        .rev()
        .find(|run| is_covered(run.from, run.to, i))
        .map(|run| run.value)
}

/// Whether a run covers a place.
fn is_covered(from: u32, to: u32, i: u32) -> bool
    ensures { result ≡ is_between from to i }
{
    from <= i && i < to
}

/// What runs give, each over its places; a run that gives nothing is left out.
fn runs_of<T: Copy, G: Fn(Run) -> Option<T>>(
    alloc: Global,
    runs: &[Run],
    given: G,
) -> Result<ListOf<RunOf<T>>, Memory>
    requires { G.IsAlwaysCallable given }
    ensures { (gives : Run → Option T) → ((run : Run) (value : Option T) → G.post given run value → value ≡ gives run) → IfOk result (λ made. made ≡ runs_by gives runs.now) }
{
    let mut made = ListOf::new(alloc);
    for run in runs {
        if let Some(value) = given(*run) {
            made.push(RunOf {
                from: run.from,
                to: run.to,
                value,
            })?;
        }
    }
    Ok(made)
}

/// The face that a run gives, where it is a run of a face.
fn face_given(run: Run, faces: &[Face]) -> Option<Face>
    ensures { result ≡ face_by run.kind faces.now run.value }
{
    match run.kind {
        RunKind::Face => Some(face_named(faces, run.value)),
        RunKind::Display => None,
    }
}

/// The number of the display spec that a run gives, where it is a run of one.
fn spec_given(run: Run) -> Option<u32>
    ensures { result ≡ spec_by run.kind run.value }
{
    match run.kind {
        RunKind::Face => None,
        RunKind::Display => Some(run.value),
    }
}

/// The face of a number, and the plain face where there is none.
fn face_named(faces: &[Face], number: u32) -> Face
    ensures { result ≡ slice_index_or faces.now number plain }
{
    faces.get(number as usize).copied().unwrap_or(Face::PLAIN)
}
