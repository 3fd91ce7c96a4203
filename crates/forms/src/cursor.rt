ghost use Rattle.std.specs.Prelude.{◌≡◌, ℕ, List, [], ◌∷◌, ◌++◌, codes, MatchBool, MatchOption, MatchResult, ◌≢◌, Some};
ghost use Rattle.forms.specs.Faults.{form_reason};
ghost use Rattle.forms.specs.Reading.{left};
ghost use Rattle.forms.specs.Forms.{Numbered, OnlyNumber, Numberless, Worded, OnlyWord, Word, Wordless, Lined, OnlyLine, Lineless};

use crate::{lines, numbers, words};
use std::fmt;

// Why a text is not of its form.
#[derive(Clone, Copy, PartialEq, Eq, Debug)]
pub enum FormFault {
    NotANumber,
    NotAWord,
    UnknownWord,
    // a bracket or a space is missing, or something follows the end
    Layout,
}

impl FormFault {
    // The reason in words, beside the `Display`, since it cannot fail.
    pub fn reason(self) -> &'static str
        ensures { result.now ≡ form_reason self }
    {
        match self {
            FormFault::NotANumber => "not a number",
            FormFault::NotAWord => "not a word",
            FormFault::UnknownWord => "unknown word",
            FormFault::Layout => "not of the form",
        }
    }
}

impl fmt::Display for FormFault {
    ghost output = { λ e. Some (form_reason e) };

    fn fmt<W: fmt::Write>(&self, f: &mut fmt::Formatter<W>) -> fmt::Result {
        f.write_str(self.reason())
    }
}

// Reads a text from its front.
#[derive(Clone, Copy)]
pub struct Cursor<'f> {
    pub rest: &'f [u8],
}

impl<'f> Cursor<'f> {
    // The number that is next.
    pub fn number(&mut self) -> Result<u32, FormFault>
        ensures { MatchResult result
            (λ n. Numbered n (left self.new) (left self.old) × OnlyNumber n (left self.new) (left self.old))
            (λ e. (e ≡ FormFault.NotANumber) × Numberless (left self.old) × (left self.new ≡ left self.old)) }
    {
        let (n, rest) = numbers::number(self.rest).ok_or(FormFault::NotANumber)?;
        self.rest = rest;
        Ok(n)
    }

    // The word that is next, as the part of the text that spells it.
    pub fn word(&mut self) -> Result<&'f [u8], FormFault>
        ensures { MatchResult result
            (λ w. Worded w.now (left self.new) (left self.old) × OnlyWord w.now (left self.new) (left self.old))
            (λ e. (e ≡ FormFault.NotAWord) × Wordless (left self.old) × (left self.new ≡ left self.old)) }
    {
        let (word, rest) = words::word(self.rest).ok_or(FormFault::NotAWord)?;
        self.rest = rest;
        Ok(word)
    }

    // Goes past `c` if it is next, and says whether it was: a flag is all that there is to tell.
    pub fn accept(&mut self, c: char) -> bool
        ensures { MatchBool result (left self.old ≡ c ∷ left self.new)
            ((left self.new ≡ left self.old) × ((x : List ℕ) → left self.old ≢ c ∷ x)) }
    {
        match self.rest.split_first() {
            Some((first, rest)) if char::from(*first) == c => {
                self.rest = rest;
                true
            }
            _ => false,
        }
    }

    // Goes past `c`, which must be next.
    pub fn expect(&mut self, c: char) -> Result<(), FormFault>
        ensures { MatchResult result (λ _. left self.old ≡ c ∷ left self.new)
            (λ e. (e ≡ FormFault.Layout) × ((x : List ℕ) → left self.old ≢ c ∷ x) × (left self.new ≡ left self.old)) }
    {
        if !self.accept(c) {
            return Err(FormFault::Layout);
        }
        Ok(())
    }

    // Goes past the bracket and the word `name`, with which a form opens. Of a text that goes on so, but not with a space
    // after the word, a failure says nothing.
    pub fn opening(&mut self, name: &[u8]) -> Result<(), FormFault>
        ensures { MatchResult result (λ _. left self.old ≡ codes "(" ++ (name.now ++ left self.new))
            (λ _. Word name.now → (x : List ℕ) → left self.old ≢ codes "(" ++ (name.now ++ (codes " " ++ x))) }
    {
        self.expect('(')?;
        if self.word()? != name {
            return Err(FormFault::UnknownWord);
        }
        Ok(())
    }

    // The next line, without the byte 10 that ends it.
    pub fn line(&mut self) -> Option<&'f [u8]>
        ensures { MatchOption result (Lineless (left self.old) × (left self.new ≡ left self.old))
            (λ l. Lined l.now (left self.new) (left self.old) × OnlyLine l.now (left self.new) (left self.old)) }
    {
        let (line, rest) = lines::line(self.rest)?;
        self.rest = rest;
        Some(line)
    }

    // Nothing is left.
    pub fn end(&self) -> Result<(), FormFault>
        ensures { MatchResult result (λ _. left self.now ≡ []) (λ e. (e ≡ FormFault.Layout) × (left self.now ≢ [])) }
    {
        if self.rest.is_empty() {
            Ok(())
        } else {
            Err(FormFault::Layout)
        }
    }

    // The last bracket of a line, and nothing after it.
    pub fn finish(&mut self) -> Result<(), FormFault>
        ensures { MatchResult result (λ _. left self.old ≡ codes ")")
            (λ e. (e ≡ FormFault.Layout) × (left self.old ≡ codes ")" → ⊥)) }
    {
        self.expect(')')?;
        self.end()
    }
}
