//! Arguments: options and operands.
ghost use Rattle.std.specs.Prelude.{◌≡◌, None, Some, OnOk, map, option_map, string_bytes};
ghost use Rattle.tinyjson_cli.specs.Arguments.{Reads, Takes, given_of, join, flag, operand};
ghost use Rattle.tinyjson_cli.specs.Arguments.{with_number, with_text};
ghost use Rattle.tinyjson_cli.specs.Arguments.{number_of, number_or, text_or, taken_gives, value_gives};
ghost use Rattle.tinyjson_cli.specs.Arguments.{by_letter, by_name, letters_give, name_gives};
ghost use Rattle.tinyjson_cli.specs.Arguments.{is_given, last_number, newer, first_operand};
ghost use Rattle.tinyjson_cli.specs.Arguments.{option_gives, word_gives};
ghost use Rattle.tinyjson_cli.specs.Misuses.{misuse_message};
ghost use Rattle.tinyjson_cli.specs.declared.arguments.Misuse.{Misuse};

use crate::shown::Shown;
use std::alloc::{AllocError, Global};
use std::{fmt, str};

/// What an option takes.
#[derive(Clone, Copy)]
pub enum Taken {
    /// A number of 1 to 9 digits.
    Number,
    /// Any text, as the name of a file.
    Text,
}

/// An option that a program knows.
#[derive(Clone, Copy)]
pub struct Known<'a> {
    /// Its letter, as `b'd'` for `-d`.
    pub letter: u8,
    /// Its long name, as `"depth"` for `--depth`.
    pub name: &'a str,
    /// What follows it, if it takes something.
    pub takes: Option<Taken>,
}

/// A number that was given after an option.
#[derive(Clone, Copy)]
pub struct Number {
    /// The option's letter.
    pub letter: u8,
    /// The number.
    pub value: usize,
}

/// A text that was given after an option.
#[derive(Clone, Copy)]
pub struct Text<'a> {
    /// The option's letter.
    pub letter: u8,
    /// The text.
    pub value: &'a str,
}

/// The arguments after a program's name, each kind in order.
#[derive(Drop)]
pub struct Arguments<'a> {
    /// The letters of the options that take nothing.
    pub flags: Vec<u8>,
    /// The options with a number.
    pub numbers: Vec<Number>,
    /// The options with a text.
    pub texts: Vec<Text<'a>>,
    /// The other arguments.
    pub operands: Vec<&'a str>,
}

/// Why arguments are not understood.
#[derive(Clone, Copy)]
pub enum Misuse<'a> {
    /// This argument names an option that the program does not know.
    Unknown(&'a str),
    /// No number of 1 to 9 digits follows the option with this letter.
    NoNumber(u8),
    /// No text follows the option with this letter.
    NoText(u8),
    /// This operand is missing.
    Missing(&'a str),
    /// An argument is not UTF-8.
    NotUtf8,
    /// Memory ran out.
    OutOfMemory,
}

/// What is wrong with the arguments.
impl fmt::Display for Misuse<'_> {
    ghost output = { λ m. Some (misuse_message m) };

    fn fmt<W: fmt::Write>(&self, f: &mut fmt::Formatter<W>) -> fmt::Result {
        match self {
            Misuse::Unknown(word) => write!(
                f,
                "unknown option \"{}\"; after -- it is an operand",
                Shown(word)
            ),
            Misuse::NoNumber(letter) => {
                let letter = *letter as char;
                write!(f, "no number of 1 to 9 digits after -{letter}")
            }
            Misuse::NoText(letter) => {
                let letter = *letter as char;
                write!(f, "no text after -{letter}")
            }
            Misuse::Missing(name) => write!(f, "{name} is missing"),
            Misuse::NotUtf8 => f.write_str("an argument is not UTF-8"),
            Misuse::OutOfMemory => f.write_str("out of memory"),
        }
    }
}

impl From<AllocError> for Misuse<'_> {
    ghost from_gives = { λ _ m. m ≡ Misuse.OutOfMemory };

    fn from(_: AllocError) -> Self {
        Misuse::OutOfMemory
    }
}

/// What the next word is.
#[derive(Clone, Copy)]
pub enum Next {
    /// An option or an operand.
    Any,
    /// What the option with this letter takes.
    Value(Taken, u8),
    /// An operand, also where it begins with `-`.
    Operand,
}

/// Reads the arguments after the program's name: options of one letter after one dash, alone or together, and options by
/// their names after two. Options and operands come in any order; `-` is an operand, and after `--` all are.
/// A number or text follows its option in the same word, after `=` where the option is named, or is the next word.
///
/// ```
/// // Of `-kd5 a.json`, where `d` takes a number:
/// let arguments = read_arguments(alloc, &known, words.as_slice())?; // flags "k", the number 5 of `d`, operand a.json
/// ```
pub fn read_arguments<'a>(
    alloc: Global,
    known: &[Known<'_>],
    words: &'a [String],
) -> Result<Arguments<'a>, Misuse<'a>>
    ensures { Reads known.now (map string_bytes words.now) result }
{
    let mut arguments = Arguments {
        flags: Vec::new(alloc),
        numbers: Vec::new(alloc),
        texts: Vec::new(alloc),
        operands: Vec::new(alloc),
    };
    let mut next = Next::Any;
    for word in words {
        next = arguments.take_word(known, next, word.as_str())?;
    }
    match next {
        Next::Value(Taken::Number, letter) => Err(Misuse::NoNumber(letter)),
        Next::Value(Taken::Text, letter) => Err(Misuse::NoText(letter)),
        Next::Any | Next::Operand => Ok(arguments),
    }
}

impl<'a> Arguments<'a> {
    /// Whether the option with this letter is given.
    pub fn has(&self, letter: u8) -> bool
        ensures { result ≡ is_given letter (given_of self.now) }
    {
        self.flags.contains(&letter)
    }

    /// The number that was given last for the option with this letter.
    pub fn number(&self, letter: u8) -> Option<usize>
        ensures { result ≡ last_number letter None (given_of self.now).numbers }
    {
        let mut last = None;
        for number in &self.numbers {
            last = newer(letter, *number, last);
        }
        last
    }

    /// The first operand, and the others.
    pub fn first(&self) -> Option<(&'a str, &[&'a str])>
        ensures { option_map (λ r. (r.0.now, map (λ s. s.now) r.1.now)) result
            ≡ first_operand (given_of self.now).operands }
    {
        match self.operands.as_slice() {
            [first, others @ ..] => Some((*first, others)),
            [] => None,
        }
    }

    fn take_word(
        &mut self,
        known: &[Known<'_>],
        next: Next,
        word: &'a str,
    ) -> Result<Next, Misuse<'a>>
        ensures { Takes (word_gives known.now next word.now)
            (given_of self.old) (given_of self.new) result }
    {
        match next {
            Next::Any => self.take_option(known, word),
            Next::Value(taken, letter) => self.take_given(taken, letter, word.as_bytes()),
            Next::Operand => {
                self.add_operand(word)?;
                Ok(Next::Operand)
            }
        }
    }

    /// Takes a word that may be an option.
    fn take_option(&mut self, known: &[Known<'_>], word: &'a str) -> Result<Next, Misuse<'a>>
        ensures { Takes (option_gives known.now word.now)
            (given_of self.old) (given_of self.new) result }
    {
        let bytes = word.as_bytes();
        if bytes.len() < 2 || bytes[0] != b'-' {
            self.add_operand(word)?;
            return Ok(Next::Any);
        }
        if bytes[1] != b'-' {
            return self.take_letters(known, word, &bytes[1..]);
        }
        if bytes.len() == 2 {
            return Ok(Next::Operand);
        }
        self.take_name(known, word, &bytes[2..])
    }

    /// Takes the letters of a word after its dash.
    fn take_letters(
        &mut self,
        known: &[Known<'_>],
        word: &'a str,
        letters: &'a [u8],
    ) -> Result<Next, Misuse<'a>>
        ensures { Takes (letters_give known.now word.now letters.now)
            (given_of self.old) (given_of self.new) result }
    {
        for at in 0..letters.len() {
            let Some(option) = with_letter(known, letters[at]) else {
                return Err(Misuse::Unknown(word));
            };
            if let Some(taken) = option.takes {
                return self.take_value(taken, option.letter, &letters[at + 1..]);
            }
            self.add_flag(option.letter)?;
        }
        Ok(Next::Any)
    }

    /// Takes the text of a word after its two dashes.
    fn take_name(
        &mut self,
        known: &[Known<'_>],
        word: &'a str,
        text: &'a [u8],
    ) -> Result<Next, Misuse<'a>>
        ensures { Takes (name_gives word.now (by_name known.now text.now))
            (given_of self.old) (given_of self.new) result }
    {
        let Some((option, rest)) = with_name(known, text) else {
            return Err(Misuse::Unknown(word));
        };
        if let Some(taken) = option.takes {
            if rest.is_empty() {
                return Ok(Next::Value(taken, option.letter));
            }
            return self.take_given(taken, option.letter, &rest[1..]);
        }
        if !rest.is_empty() {
            return Err(Misuse::Unknown(word));
        }
        self.add_flag(option.letter)?;
        Ok(Next::Any)
    }

    /// Takes what follows an option in its word, unless the next word is what it takes.
    fn take_value(&mut self, taken: Taken, letter: u8, rest: &'a [u8]) -> Result<Next, Misuse<'a>>
        ensures { Takes (value_gives taken letter rest.now)
            (given_of self.old) (given_of self.new) result }
    {
        if rest.is_empty() {
            return Ok(Next::Value(taken, letter));
        }
        self.take_given(taken, letter, rest)
    }

    /// Takes the number or the text of an option.
    fn take_given(&mut self, taken: Taken, letter: u8, bytes: &'a [u8]) -> Result<Next, Misuse<'a>>
        ensures { Takes (taken_gives taken letter bytes.now)
            (given_of self.old) (given_of self.new) result }
    {
        match taken {
            Taken::Number => self.take_number(letter, bytes),
            Taken::Text => self.take_text(letter, bytes),
        }
    }

    /// Takes the number of an option.
    fn take_number(&mut self, letter: u8, digits: &[u8]) -> Result<Next, Misuse<'a>>
        ensures { Takes (number_or letter (number_of digits.now))
            (given_of self.old) (given_of self.new) result }
    {
        let Some(value) = read_number(digits) else {
            return Err(Misuse::NoNumber(letter));
        };
        self.add_number(letter, value)?;
        Ok(Next::Any)
    }

    /// Takes the text of an option.
    fn take_text(&mut self, letter: u8, bytes: &'a [u8]) -> Result<Next, Misuse<'a>>
        ensures { Takes (text_or letter bytes.now)
            (given_of self.old) (given_of self.new) result }
    {
        let Ok(value) = str::from_utf8(bytes) else {
            return Err(Misuse::NoText(letter));
        };
        self.add_text(letter, value)?;
        Ok(Next::Any)
    }

    fn add_flag(&mut self, letter: u8) -> Result<(), AllocError>
        ensures { OnOk result (given_of self.new ≡ join (given_of self.old) (flag letter)) }
    {
        self.flags.push(letter)?;
        Ok(())
    }

    fn add_number(&mut self, letter: u8, value: usize) -> Result<(), AllocError>
        ensures { OnOk result
            (given_of self.new ≡ join (given_of self.old) (with_number letter value)) }
    {
        self.numbers.push(Number { letter, value })?;
        Ok(())
    }

    fn add_text(&mut self, letter: u8, value: &'a str) -> Result<(), AllocError>
        ensures { OnOk result
            (given_of self.new ≡ join (given_of self.old) (with_text letter value.now)) }
    {
        self.texts.push(Text { letter, value })?;
        Ok(())
    }

    fn add_operand(&mut self, word: &'a str) -> Result<(), AllocError>
        ensures { OnOk result (given_of self.new ≡ join (given_of self.old) (operand word.now)) }
    {
        self.operands.push(word)?;
        Ok(())
    }
}

/// The number, if it is that of the option with this letter, or the one before it.
fn newer(letter: u8, number: Number, last: Option<usize>) -> Option<usize>
    ensures { result ≡ newer letter number last }
{
    if number.letter == letter {
        return Some(number.value);
    }
    last
}

/// The option with this letter.
fn with_letter<'b>(known: &[Known<'b>], letter: u8) -> Option<Known<'b>>
    ensures { result ≡ by_letter known.now letter }
{
    for option in known {
        if option.letter == letter {
            return Some(*option);
        }
    }
    None
}

/// The option whose name begins the text, and what follows its name.
fn with_name<'b, 't>(known: &[Known<'b>], text: &'t [u8]) -> Option<(Known<'b>, &'t [u8])>
    ensures { option_map (λ r. (r.0, r.1.now)) result ≡ by_name known.now text.now }
{
    for option in known {
        if let Some(rest) = text.strip_prefix(option.name.as_bytes()) {
            if rest.is_empty() || rest[0] == b'=' {
                return Some((*option, rest));
            }
        }
    }
    None
}

/// The number that 1 to 9 decimal digits write.
fn read_number(digits: &[u8]) -> Option<usize>
    ensures { result ≡ number_of digits.now }
{
    if digits.is_empty() || digits.len() > 9 {
        return None;
    }
    let mut value: usize = 0;
    for digit in digits {
        if !digit.is_ascii_digit() {
            return None;
        }
        value = value * 10 + (*digit - b'0') as usize;
    }
    Some(value)
}
