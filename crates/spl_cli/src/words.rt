// The words after the program's name.
ghost use Rattle.std.specs.Prelude.{◌≡◌, [], ◌∷◌, ◌++◌, OnOk, OnErr, map, string_bytes};
ghost use Rattle.spl_cli.specs.Forms.{form_of};

use spl_field::field::NoMemory;
use std::alloc::Global;
use std::marker::Model;

/// What the words ask for.
#[derive(Clone, Copy, Debug, PartialEq, Eq)]
pub(crate) enum Form {
    /// To decide a table.
    Decide,
    /// To check the evidence behind a table.
    Check,
}

/// The words after the program's name, seen as a list of texts.
#[derive(Drop)]
pub struct Words {
    alloc: Global,
    items: Vec<String>,
}

impl Model for Words {
    ghost use Rattle.std.specs.Prelude.{ℕ, List, map, string_bytes};

    ghost Value = { List (List ℕ) };

    ghost view = { λ w. map string_bytes w.items.items };
}

impl Words {
    /// No words. It takes no memory; the words keep the allocator.
    pub fn new(alloc: Global) -> Words
        ensures { result ≡ [] }
    {
        Words {
            alloc,
            items: Vec::new(alloc),
        }
    }

    /// Appends a word.
    pub fn push(&mut self, word: &str) -> Result<(), NoMemory>
        ensures ok { OnOk result (self.new ≡ self.old ++ word.now ∷ []) }
        ensures err { OnErr result (self.new ≡ self.old) }
    {
        let word = String::from_str(self.alloc, word)?;
        self.items.push(word)?;
        Ok(())
    }

    /// The form of the words; None where they are of no form.
    pub(crate) fn form(&self) -> Option<Form>
        ensures { result ≡ form_of self.now }
    {
        form_of_words(&self.items)
    }
}

/// The form of these words.
fn form_of_words(words: &[String]) -> Option<Form>
    ensures { result ≡ form_of (map string_bytes words.now) }
{
    match words {
        [only] => form_named(only.as_str()),
        _ => None,
    }
}

/// The form of one word.
fn form_named(word: &str) -> Option<Form>
    ensures { result ≡ form_of (word.now ∷ []) }
{
    if word == "decide" {
        Some(Form::Decide)
    } else if word == "check" {
        Some(Form::Check)
    } else {
        None
    }
}
