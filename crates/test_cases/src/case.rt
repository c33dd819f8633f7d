ghost use Rattle.std.specs.Prelude.{◌≡◌, ◌++◌, ◌∷◌, ◌-◌, [], OnOk, length, replicate, take};

use journal_model::line::ActorWord;
use script_words::words::actor;
use std::alloc::Global;
use std::io::{Error, ErrorKind, Result};
use ttm_base::Actor;

/// The times at which parts that follow a device are compared with it.
#[derive(Clone, Copy)]
pub enum When {
    /// At the start, and after each entry.
    EachEntry,
    /// Once, after all turns.
    AtTheEnd,
}

/// How fast a value counts, by which workers are tested.
#[derive(Clone, Copy)]
pub enum Pace {
    Fast,
    /// Slowly: a step takes some milliseconds.
    Slow,
}

/// What a case runs.
#[derive(Clone, Copy)]
pub enum Form {
    /// The program, by the case's words and text.
    Program,
    /// Two devices, which are compared turn by turn, and parts that follow one of them.
    Devices(When),
    /// The program on the script that is drawn from a number.
    Drawn(u64),
    /// A turn lock on a value that counts, and workers on threads.
    Workers(Pace),
    /// A turn lock on a value that counts, without threads.
    OneWorker,
}

/// How workers are held before their turns.
#[derive(Clone, Copy, PartialEq, Eq)]
pub enum Hold {
    Nobody,
    /// Workers 1 and 2 wait for each other in their first turns.
    UntilTheyMeet,
    /// All but this worker wait in their first turns until it comes to its seventh.
    UntilSeventhOf(u32),
    /// Worker 1 waits in its second turn until another comes to its third, and the others in their first until worker 1 is held.
    InBatchOfFirst,
}

/// What a program is given, and how.
pub struct Case {
    pub name: String,
    /// The words after the program's name.
    pub words: Vec<String>,
    /// The numbers of bytes that a read or a write moves at most: one run for each number.
    pub chunks: Vec<u64>,
    /// The reads that fail, counted from 1.
    pub read_fails: Vec<u64>,
    /// The writes that fail, counted from 1.
    pub write_fails: Vec<u64>,
    /// The actors whose turns these are, in order.
    pub steps: Vec<Actor>,
    /// Whether, after the steps, turns in the simulator's order follow until all is over.
    pub to_the_end: bool,
    /// Whether the frame that each page of TT stands for is printed at the end.
    pub shows_aperture: bool,
    /// Whether the answer to each turn is told, and the report at the end.
    pub tells_turns: bool,
    /// Whether, after each answered command, what the first thread's mapping of the first buffer knows is printed.
    pub shows_mapping: bool,
    /// How a gate holds the workers, if one does. A line tells what it saw.
    pub watched: Option<Hold>,
    /// The number of turns that the gate sees at least.
    pub least_turns: u64,
    pub form: Form,
    pub text: Vec<u8>,
}

/// By hand, so that no crate above proves how each part goes.
impl Drop for Case {
    fn drop(self) {
        let Self {
            name: _,
            words: _,
            chunks: _,
            read_fails: _,
            write_fails: _,
            steps: _,
            to_the_end: _,
            shows_aperture: _,
            tells_turns: _,
            shows_mapping: _,
            watched: _,
            least_turns: _,
            form: _,
            text: _,
        } = self;
    }
}

/// Makes the error of a line that says nothing of a case, or comes where it may not.
fn broken() -> Error {
    Error::from(ErrorKind::InvalidData)
}

/// Reads the number that `word` is.
fn number(word: &str) -> Result<u64> {
    match word.parse::<u64>() {
        Ok(number) => Ok(number),
        Err(_) => Err(broken()),
    }
}

/// Reads the numbers of `words` into `list`, which has then no others.
fn read_numbers(list: &mut Vec<u64>, words: &str) -> Result<()> {
    list.clear();
    for word in words.split_whitespace() {
        list.push(number(word)?)?;
    }
    Ok(())
}

/// Reads the actors of `words`, and adds them to `list`.
fn add_actors(list: &mut Vec<Actor>, words: &str) -> Result<()> {
    for word in words.split_whitespace() {
        match actor(u32::MAX, u32::MAX, word.as_bytes()) {
            ActorWord::Is(who) => list.push(who)?,
            _ => return Err(broken()),
        }
    }
    Ok(())
}

/// Lines that say what a case runs.
const FORMS: &[(&str, Form)] = &[
    ("compare each entry", Form::Devices(When::EachEntry)),
    ("compare at the end", Form::Devices(When::AtTheEnd)),
    ("count", Form::Workers(Pace::Fast)),
    ("count slowly", Form::Workers(Pace::Slow)),
    ("count alone", Form::OneWorker),
];

/// Lines that say how a gate holds the workers.
const HOLDS: &[(&str, Hold)] = &[
    ("watch", Hold::Nobody),
    ("watch two that meet", Hold::UntilTheyMeet),
    ("watch worker 1 ahead", Hold::UntilSeventhOf(1)),
    ("watch worker 2 ahead", Hold::UntilSeventhOf(2)),
    ("watch worker 1 held", Hold::InBatchOfFirst),
];

/// What a line with more words tells.
#[derive(Clone, Copy)]
enum Told {
    Chunks,
    ReadFails,
    WriteFails,
    Steps,
    Turns,
    Drawn,
    Letters,
}

/// The first words of lines with more words.
const HEADS: &[(&str, Told)] = &[
    ("chunks ", Told::Chunks),
    ("read fails ", Told::ReadFails),
    ("write fails ", Told::WriteFails),
    ("steps ", Told::Steps),
    ("turns ", Told::Turns),
    ("draw ", Told::Drawn),
    ("letters ", Told::Letters),
];

/// Returns what `line` stands for in `rows`, if it stands there.
fn found<T: Copy>(rows: &[(&str, T)], line: &str) -> Option<T> {
    for (text, meaning) in rows {
        if *text == line {
            return Some(*meaning);
        }
    }
    None
}

impl Case {
    /// Makes a case without a name. It is run with no number of bytes at a time.
    fn unnamed(alloc: Global) -> Case {
        Case {
            name: String::new(alloc),
            words: Vec::new(alloc),
            chunks: Vec::new(alloc),
            read_fails: Vec::new(alloc),
            write_fails: Vec::new(alloc),
            steps: Vec::new(alloc),
            to_the_end: false,
            shows_aperture: false,
            tells_turns: false,
            shows_mapping: false,
            watched: None,
            least_turns: 1,
            form: Form::Program,
            text: Vec::new(alloc),
        }
    }

    /// Takes the name and the words of `title`.
    fn set_title(&mut self, alloc: Global, title: &str) -> Result<()> {
        for word in title.split_whitespace() {
            if self.name.is_empty() {
                self.name.push_str(word)?;
            } else {
                self.words.push(String::from_str(alloc, word)?)?;
            }
        }
        Ok(())
    }

    /// Begins the case of `line`, with an empty text. It is run with 1 and with 4,096 bytes at a time.
    pub(crate) fn begin(alloc: Global, line: &str) -> Result<Case> {
        let Some(title) = line.strip_prefix("case ") else {
            return Err(broken());
        };
        let mut case = Case::unnamed(alloc);
        case.set_title(alloc, title)?;
        case.chunks.extend_from_slice(&[1, 4096])?;
        Ok(case)
    }

    /// Takes `line`, which stands between the first and `text`.
    pub(crate) fn set(&mut self, alloc: Global, line: &str) -> Result<()> {
        if let Some(form) = found(FORMS, line) {
            self.form = form;
        } else if let Some(hold) = found(HOLDS, line) {
            self.watched = Some(hold);
        } else {
            match line {
                "to the end" => self.to_the_end = true,
                "aperture" => self.shows_aperture = true,
                "tell turns" => self.tells_turns = true,
                "mapping" => self.shows_mapping = true,
                _ => return self.set_list(alloc, line),
            }
        }
        Ok(())
    }

    /// Takes a line with numbers or actors.
    fn set_list(&mut self, alloc: Global, line: &str) -> Result<()> {
        for (head, told) in HEADS {
            if let Some(words) = line.strip_prefix(*head) {
                return self.set_words(alloc, *told, words);
            }
        }
        Err(broken())
    }

    /// Takes the words of a line after the first ones, by which they tell this.
    fn set_words(&mut self, alloc: Global, told: Told, words: &str) -> Result<()> {
        match told {
            Told::Chunks => read_numbers(&mut self.chunks, words),
            Told::ReadFails => read_numbers(&mut self.read_fails, words),
            Told::WriteFails => read_numbers(&mut self.write_fails, words),
            Told::Steps => add_actors(&mut self.steps, words),
            Told::Turns => {
                self.least_turns = number(words)?;
                Ok(())
            }
            Told::Drawn => {
                self.form = Form::Drawn(number(words)?);
                Ok(())
            }
            Told::Letters => match words.parse::<u32>() {
                Ok(count) => self.put_letters(alloc, count),
                Err(_) => Err(broken()),
            },
        }
    }

    /// Adds `count` letters x at the end of the text.
    fn put_letters(&mut self, alloc: Global, count: u32) -> Result<()>
        ensures { OnOk result (self.new.text.items ≡ self.old.text.items ++ replicate count 120) }
    {
        let letters = vec![in alloc; b'x'; count as usize]?;
        self.text.extend_from_slice(&letters)?;
        Ok(())
    }

    /// Adds `line` at the end of the text.
    pub(crate) fn put_line(&mut self, line: &str) -> Result<()>
        ensures { OnOk result (self.new.text.items ≡ self.old.text.items ++ line.now ++ 10 ∷ []) }
    {
        self.text.extend_from_slice(line.as_bytes())?;
        self.text.push(b'\n')?;
        Ok(())
    }

    /// Removes the last byte of the text.
    pub(crate) fn cut_last(&mut self)
        ensures { self.new.text.items ≡ take (length self.old.text.items - 1) self.old.text.items }
    {
        let _ = self.text.pop();
    }
}
