use crate::Case;
use std::alloc::Global;
use std::io::Result;

/// A table of cases, which is read line by line.
#[derive(Drop)]
pub struct Table {
    alloc: Global,
    case: Option<Case>,
    in_text: bool,
}

impl Table {
    /// Makes a table of which no line was read.
    pub fn new(alloc: Global) -> Table {
        Table {
            alloc,
            case: None,
            in_text: false,
        }
    }

    /// Takes the next line, and returns the case that it ends, if it ends one.
    ///
    /// # Errors
    ///
    /// A line that may not come there, or lack of memory.
    pub fn take(&mut self, line: &str) -> Result<Option<Case>> {
        if self.in_text && line == "end case" {
            return Ok(self.end());
        }
        if self.in_text && line == "cut case" {
            self.cut_last();
            return Ok(self.end());
        }
        self.take_more(line)?;
        Ok(None)
    }

    /// Takes a line that ends no case.
    fn take_more(&mut self, line: &str) -> Result<()> {
        match &mut self.case {
            None => {
                self.case = Some(Case::begin(self.alloc, line)?);
                Ok(())
            }
            Some(case) => {
                if self.in_text {
                    case.put_line(line)
                } else if line == "text" {
                    self.in_text = true;
                    Ok(())
                } else {
                    case.set(self.alloc, line)
                }
            }
        }
    }

    /// Removes the last byte of the text.
    fn cut_last(&mut self) {
        if let Some(case) = &mut self.case {
            case.cut_last();
        }
    }

    /// Returns the case that was read.
    fn end(&mut self) -> Option<Case> {
        self.in_text = false;
        self.case.take()
    }
}
