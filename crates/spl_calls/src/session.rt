// The lines: what they set, and the call that each makes.
use crate::{devices, evidences, runs, tables};
use spl_field::field::NoMemory;
use spl_fraction::field::Fractions;
use spl_place_words::calls;
use spl_place_words::residues::over_residues;
use spl_words::fault::Fault;
use spl_words::{args, laws, polynomials, show, small, texts};
use std::alloc::Global;

/// The most letters of what a name stands for.
const MOST: usize = 67108864;

/// What the lines so far have set: the field with its fractions, and what the names stand for.
#[derive(Drop)]
pub(crate) struct Session<'a> {
    fractions: Fractions,
    names: Vec<(&'a str, String)>,
}

/// The fractions over the field of the characteristic and the modulus; None, and why, where there is no such field.
fn fractions_over(
    alloc: Global,
    p: &str,
    modulus: &str,
    out: &mut Vec<u8>,
) -> Result<Option<Fractions>, Fault> {
    match small::field(alloc, p, modulus, out)? {
        Some(f) => {
            small::shape(out, &f)?;
            Ok(Some(Fractions::over(alloc, &f)?))
        }
        None => Ok(None),
    }
}

/// The word, cut at its dot.
fn parts(word: &str) -> Result<(&str, &str), Fault> {
    word.split_once('.').ok_or(Fault::BadLine)
}

/// The answer of a call.
fn call(
    alloc: Global,
    k: &Fractions,
    word: &str,
    words: &[&str],
    out: &mut Vec<u8>,
) -> Result<(), Fault> {
    if word == "run" {
        return runs::call(alloc, words, out);
    }
    if word == "check_laws" {
        return laws::call(alloc, words, out);
    }
    if word == "generator" {
        return polynomials::generator_call(alloc, k.field(), words, out);
    }
    let (kind, call) = parts(word)?;
    match kind {
        "memory" => devices::memory(alloc, call, words, out),
        "stream" => devices::stream(alloc, call, words, out),
        "table" => tables::call(alloc, call, words, out),
        "evidence" => evidences::call(alloc, k, call, words, out),
        _ => calls::call(alloc, k, kind, call, words, out),
    }
}

/// The answer of a call over the fractions.
fn call_over_fractions(
    alloc: Global,
    k: &Fractions,
    words: &[&str],
    out: &mut Vec<u8>,
) -> Result<(), Fault> {
    let [word, rest @ ..] = words else {
        return Err(Fault::BadLine);
    };
    let (kind, call) = parts(word)?;
    calls::over_field(alloc, k, kind, call, rest, out)
}

/// The text that `join`, `cut` or `repeat` makes of these words.
fn new_text(alloc: Global, word: &str, words: &[&str]) -> Result<String, Fault> {
    match (word, words) {
        ("join", _) => texts::join(alloc, words),
        ("cut", [text, count]) => texts::cut(alloc, text, args::below(count, MOST)?),
        ("repeat", [text, count]) => texts::repeat(alloc, text, args::below(count, MOST)?),
        _ => Err(Fault::BadLine),
    }
}

/// The words of a line.
fn words_of<'a>(alloc: Global, line: &'a str) -> Result<Vec<&'a str>, NoMemory> {
    let mut words = Vec::new(alloc);
    for word in line.split(' ') {
        words.push(word)?;
    }
    Ok(words)
}

impl<'a> Session<'a> {
    /// The field of two elements, and no names.
    pub(crate) fn new(alloc: Global) -> Result<Session<'a>, Fault> {
        let mut ignored = Vec::new(alloc);
        match fractions_over(alloc, "2", "0", &mut ignored)? {
            Some(fractions) => Ok(Session {
                fractions,
                names: Vec::new(alloc),
            }),
            None => Err(Fault::BadLine),
        }
    }

    /// `over P M`: sets the field.
    fn over(&mut self, alloc: Global, words: &[&str], out: &mut Vec<u8>) -> Result<(), Fault> {
        let [p, modulus] = words else {
            return Err(Fault::BadLine);
        };
        if let Some(k) = fractions_over(alloc, p, modulus, out)? {
            self.fractions = k;
        }
        Ok(())
    }

    /// What the word stands for, which is itself where no line has set it.
    fn meaning<'b>(&'b self, word: &'b str) -> &'b str {
        let mut found = word;
        for (name, text) in &self.names {
            if *name == word {
                found = text.as_str();
            }
        }
        found
    }

    /// What the words stand for.
    fn meanings<'b>(&'b self, alloc: Global, words: &[&'b str]) -> Result<Vec<&'b str>, NoMemory> {
        let mut found = Vec::new(alloc);
        for word in words {
            found.push(self.meaning(word))?;
        }
        Ok(found)
    }

    /// Gives the name its meaning, and answers how many bytes that has.
    fn name(&mut self, name: &'a str, text: String, out: &mut Vec<u8>) -> Result<(), Fault> {
        show::count(out, text.len())?;
        self.names.push((name, text))?;
        Ok(())
    }

    /// `let NAME ..`: the name stands for the rest of the line.
    fn define(&mut self, alloc: Global, rest: &'a str, out: &mut Vec<u8>) -> Result<(), Fault> {
        let Some((name, text)) = rest.split_once(' ') else {
            return Err(Fault::BadLine);
        };
        self.name(name, String::from_str(alloc, text)?, out)
    }

    /// `line NAME TEXT N ..`: the name stands for the text with the rest of the line in the place of its line N.
    fn change(&mut self, alloc: Global, rest: &'a str, out: &mut Vec<u8>) -> Result<(), Fault> {
        let Some((name, rest)) = rest.split_once(' ') else {
            return Err(Fault::BadLine);
        };
        let Some((text, rest)) = rest.split_once(' ') else {
            return Err(Fault::BadLine);
        };
        let Some((number, line)) = rest.split_once(' ') else {
            return Err(Fault::BadLine);
        };
        let number = args::positive(number, MOST)?;
        let text = texts::with_line(alloc, self.meaning(text), number, line)?;
        self.name(name, text, out)
    }

    /// `join NAME ..`, `cut NAME TEXT N` and `repeat NAME TEXT N`.
    fn make(
        &mut self,
        alloc: Global,
        word: &str,
        words: &[&'a str],
        out: &mut Vec<u8>,
    ) -> Result<(), Fault> {
        let [name, rest @ ..] = words else {
            return Err(Fault::BadLine);
        };
        let text = new_text(alloc, word, self.meanings(alloc, rest)?.as_slice())?;
        self.name(name, text, out)
    }

    /// The answer of a call.
    fn call(
        &self,
        alloc: Global,
        word: &str,
        words: &[&str],
        out: &mut Vec<u8>,
    ) -> Result<(), Fault> {
        let words = self.meanings(alloc, words)?;
        match word {
            "fractions" => call_over_fractions(alloc, &self.fractions, words.as_slice(), out),
            "residue" => over_residues(alloc, self.fractions.field(), words.as_slice(), out),
            _ => call(alloc, &self.fractions, word, words.as_slice(), out),
        }
    }

    /// The answer to a word and what stands behind it.
    fn word(
        &mut self,
        alloc: Global,
        word: &'a str,
        rest: &'a str,
        out: &mut Vec<u8>,
    ) -> Result<(), Fault> {
        match word {
            "let" => return self.define(alloc, rest, out),
            "line" => return self.change(alloc, rest, out),
            _ => {}
        }
        let words = if rest.is_empty() {
            Vec::new(alloc)
        } else {
            words_of(alloc, rest)?
        };
        match word {
            "over" => self.over(alloc, words.as_slice(), out),
            "join" | "cut" | "repeat" => self.make(alloc, word, words.as_slice(), out),
            _ => self.call(alloc, word, words.as_slice(), out),
        }
    }

    /// The answer to the line.
    fn line(&mut self, alloc: Global, line: &'a str, out: &mut Vec<u8>) -> Result<(), Fault> {
        if line.is_empty() || line.starts_with('#') {
            return show::word(out, line);
        }
        let (word, rest) = line.split_once(' ').unwrap_or((line, ""));
        self.word(alloc, word, rest, out)
    }

    /// Appends the answer to the line, which is the line itself where it is empty or begins with `#`, and `bad line`
    /// where there is no other.
    pub(crate) fn answer(
        &mut self,
        alloc: Global,
        line: &'a str,
        out: &mut Vec<u8>,
    ) -> Result<(), Fault> {
        let mut answer = Vec::new(alloc);
        match self.line(alloc, line, &mut answer) {
            Ok(()) => out.extend_from_slice(answer.as_slice())?,
            Err(Fault::BadLine) => out.extend_from_slice(b"bad line")?,
            Err(Fault::Memory(e)) => return Err(Fault::Memory(e)),
        }
        out.push(b'\n')?;
        Ok(())
    }
}

/// The answers to the lines of the input, one a line.
pub(crate) fn answers(alloc: Global, input: &str) -> Result<Vec<u8>, Fault> {
    let mut session = Session::new(alloc)?;
    let mut out = Vec::new(alloc);
    for line in input.split_terminator('\n') {
        session.answer(alloc, line, &mut out)?;
    }
    Ok(out)
}
