//! Rules W1 to W7 of UAX 9 in one walk over an isolating run sequence. Each rule is a function here. In the definitions each is a pass over
//! the whole sequence; `Before` has what these passes know where the walk stands.
ghost use Rattle.std.specs.Prelude.{◌≡◌, ◌<◌, length, ◌||◌, false, unwrap_or, All, AllPairs, IfSome};
ghost use Rattle.rd_resolve.specs.Places.{types_at, TakesTypes};
ghost use Rattle.rd_resolve.specs.Weak.{w1_nonspacing_marks, strong_after, w2_european_numbers_after_arabic, w3_arabic_letters, w4_separators, w4_first_type, w5_is_en, w5_terminators, w6_remaining_separators, w7_latin_numbers, weak_types, w1, w2, w3};
ghost use Rattle.rd_resolve.specs.Walks.{w5_run_ends, w5_run_of};

use crate::walk::{WalkRules, walk};
use rd_base::{Class, Line, Seq};

/// What the rules know of the characters before one. Each field begins with the first rule that reads it.
#[derive(Clone, Copy)]
pub struct Before {
    /// The type before it after W1, or sos.
    pub w1_before: Class,
    /// The last strong type before it after W1, or sos.
    pub w2_strong: Class,
    /// The type before it after W3, or ON at the start.
    pub w4_before: Class,
    /// Whether the type before it is EN after W5.
    pub w5_number: bool,
    /// Within a run of ET, whether EN comes behind the run.
    pub w5_run: Option<bool>,
    /// The last strong type before it after W6, or sos.
    pub w7_strong: Class,
}

/// Gives the characters of an isolating run sequence the types that rules W1 to W7 of UAX 9 make of theirs. The sequence's indexes
/// ascend and lie within the line.
///
/// One walk does all seven rules; a run of ET is looked through once. The cost is linear in the sequence.
pub fn weak(line: &mut Line, seq: &Seq)
    requires within { All (λ i. i < length line.old.classes) seq.now.indexes }
    requires ascend { AllPairs (λ i j. i < j) seq.now.indexes }
    ensures { TakesTypes line.old line.new seq.now.indexes (weak_types seq.now.sos (types_at seq.now.indexes line.old.types)) }
{
    let before = Before {
        w1_before: seq.sos,
        w2_strong: seq.sos,
        w4_before: Class::ON,
        w5_number: false,
        w5_run: None,
        w7_strong: seq.sos,
    };
    walk(line, seq, before);
}

impl WalkRules for Before {
    ghost use Rattle.rd_resolve.specs.Walks.{weak_left, RunIs};

    ghost left = { λ before classes types levels. weak_left before types };

    ghost is_known = { λ before types. RunIs before.w5_run before types };

    fn step(
        &mut self,
        _original: Class,
        class: Class,
        _level: u8,
        types: &[Class],
        rest: &[u32],
    ) -> Class {
        let after_w1 = w1_nonspacing_marks(self.w1_before, class);
        let strong = strong_after(self.w2_strong, after_w1);
        let after_w2 = w2_european_numbers_after_arabic(self.w2_strong, after_w1);
        let after_w3 = w3_arabic_letters(after_w2);
        let next = w4_next_type(after_w1, strong, types, rest);
        let after_w4 = w4_separators(self.w4_before, after_w3, next);
        let run = self.w5_run_of(after_w4, types, rest);
        let after_w5 = w5_terminators(w5_beside(self.w5_number, run), after_w4);
        let after_w6 = w6_remaining_separators(after_w5);
        let given = w7_latin_numbers(self.w7_strong, after_w6);
        self.w1_before = after_w1;
        self.w2_strong = strong;
        self.w4_before = after_w3;
        self.w5_number = w5_is_en(after_w5);
        self.w5_run = run;
        self.w7_strong = strong_after(self.w7_strong, after_w6);
        given
    }
}

impl Before {
    /// For W5, whether EN comes behind the run of ET that a character of this type after W4 belongs to. The run is looked through
    /// only where it begins; None for another character.
    fn w5_run_of(&self, class: Class, types: &[Class], rest: &[u32]) -> Option<bool>
        requires within { All (λ i. i < length types.now) rest.now }
        requires run { class ≡ Class.ET → IfSome self.now.w5_run (λ ends. ends ≡ w5_run_ends self.now.w2_strong (types_at rest.now types.now)) }
        ensures { result ≡ w5_run_of class (w5_run_ends self.now.w2_strong (types_at rest.now types.now)) }
    {
        if let Class::ET = class {
            match self.w5_run {
                Some(ends) => Some(ends),
                None => Some(w5_run_ends(self.w2_strong, types, rest)),
            }
        } else {
            None
        }
    }
}

/// W1: a nonspacing mark takes the type before it, and ON behind an isolate initiator or a PDI.
fn w1_nonspacing_marks(before: Class, class: Class) -> Class
    ensures { result ≡ w1_nonspacing_marks before class }
{
    match (before, class) {
        (Class::LRI | Class::RLI | Class::FSI | Class::PDI, Class::NSM) => Class::ON,
        (_, Class::NSM) => before,
        _ => class,
    }
}

/// The last strong type (L, R or AL) up to a character, where it was known before it: what W2 and W7 search backward for.
fn strong_after(strong: Class, class: Class) -> Class
    ensures { result ≡ strong_after strong class }
{
    match class {
        Class::L | Class::R | Class::AL => class,
        _ => strong,
    }
}

/// W2: a European number becomes AN where the last strong type before it is AL.
fn w2_european_numbers_after_arabic(strong: Class, class: Class) -> Class
    ensures { result ≡ w2_european_numbers_after_arabic strong class }
{
    match (strong, class) {
        (Class::AL, Class::EN) => Class::AN,
        _ => class,
    }
}

/// W3: an Arabic letter becomes R.
fn w3_arabic_letters(class: Class) -> Class
    ensures { result ≡ w3_arabic_letters class }
{
    match class {
        Class::AL => Class::R,
        _ => class,
    }
}

/// For W4, the type that the character at the first of these indexes has after W3, or ON where there is none. It takes the type
/// before it after W1 and the last strong type before it.
fn w4_next_type(before: Class, strong: Class, types: &[Class], rest: &[u32]) -> Class
    requires { All (λ i. i < length types.now) rest.now }
    ensures { result ≡ w4_first_type (w3 (w2 strong (w1 before (types_at rest.now types.now)))) }
{
    match rest.first() {
        Some(next) => {
            let after_w1 = w1_nonspacing_marks(before, types[*next as usize]);
            w3_arabic_letters(w2_european_numbers_after_arabic(strong, after_w1))
        }
        None => Class::ON,
    }
}

/// W4: a single ES between two EN becomes EN, and a single CS between two numbers of one type becomes that type. It takes the types
/// before and behind.
fn w4_separators(before: Class, class: Class, next: Class) -> Class
    ensures { result ≡ w4_separators before class next }
{
    match (before, class, next) {
        (Class::EN, Class::ES | Class::CS, Class::EN) => Class::EN,
        (Class::AN, Class::CS, Class::AN) => Class::AN,
        _ => class,
    }
}

/// For W5, whether the characters at these indexes, behind an ET, are ET after W4 up to an EN.
fn w5_run_ends(strong: Class, types: &[Class], rest: &[u32]) -> bool
    requires { All (λ i. i < length types.now) rest.now }
    ensures { result ≡ w5_run_ends strong (types_at rest.now types.now) }
{
    for i in rest {
        match types[*i as usize] {
            Class::ET | Class::NSM => {}
            Class::EN => return w5_is_en(w2_european_numbers_after_arabic(strong, Class::EN)),
            _ => return false,
        }
    }
    false
}

/// For W5, whether EN stands before a run of ET, or behind it where that is known.
fn w5_beside(before: bool, run: Option<bool>) -> bool
    ensures { result ≡ (before || unwrap_or run false) }
{
    before || run.unwrap_or(false)
}

/// W5: an ET becomes EN where EN stands beside its run of ET.
fn w5_terminators(beside: bool, class: Class) -> Class
    ensures { result ≡ w5_terminators beside class }
{
    match class {
        Class::ET if beside => Class::EN,
        _ => class,
    }
}

/// For W5, whether a type is EN.
fn w5_is_en(class: Class) -> bool
    ensures { result ≡ w5_is_en class }
{
    matches!(class, Class::EN)
}

/// W6: a separator or terminator that W4 and W5 left becomes ON.
fn w6_remaining_separators(class: Class) -> Class
    ensures { result ≡ w6_remaining_separators class }
{
    match class {
        Class::ES | Class::ET | Class::CS => Class::ON,
        _ => class,
    }
}

/// W7: a European number becomes L where the last strong type before it is L.
fn w7_latin_numbers(strong: Class, class: Class) -> Class
    ensures { result ≡ w7_latin_numbers strong class }
{
    match (strong, class) {
        (Class::L, Class::EN) => Class::L,
        _ => class,
    }
}
