use crate::outside::Outside;
use crate::spelling::push_spelled;
use anyhow::{Result, bail};
use std::alloc::Global;
use std::mem;

/// A file of a case.
#[derive(Drop)]
struct Given {
    name: String,
    bytes: Vec<u8>,
}

/// The files of a case, and what the next command finds besides.
#[derive(Drop)]
pub struct Case {
    alloc: Global,
    files: Vec<Given>,
    /// How many files stand before the first case, once that came.
    shared: Option<usize>,
    /// Whether the line before was a file's name or bytes.
    is_open: bool,
    outside: Outside,
}

impl Case {
    /// No file, and no case yet.
    pub fn new(alloc: Global) -> Case {
        Case {
            alloc,
            files: Vec::new(alloc),
            shared: None,
            is_open: false,
            outside: Outside::new(alloc),
        }
    }

    /// Whether a line is of the bytes of the last file, which it then takes.
    pub fn takes_bytes(&mut self, line: &str) -> Result<bool> {
        if let Some(text) = line.strip_prefix('|') {
            let bytes = self.last_bytes()?;
            bytes.extend_from_slice(text.as_bytes())?;
            bytes.push(b'\n')?;
        } else if let Some(text) = line.strip_prefix('=') {
            push_spelled(text, self.last_bytes()?)?;
        } else if let Some(text) = line.strip_prefix('*') {
            self.fill(text)?;
        } else {
            return Ok(false);
        }
        Ok(true)
    }

    /// The bytes of the last file, where its lines aren't over.
    fn last_bytes(&mut self) -> Result<&mut Vec<u8>> {
        match self.files.last_mut() {
            Some(file) if self.is_open => Ok(&mut file.bytes),
            _ => bail!("no file has these bytes"),
        }
    }

    /// Fills the last file up to a length: `COUNT TEXT`.
    fn fill(&mut self, text: &str) -> Result<()> {
        let Some((count, byte)) = text.split_once(' ') else {
            bail!("no such filling: {text}");
        };
        let count = count.parse::<usize>()?;
        let mut filler = Vec::new(self.alloc);
        push_spelled(byte, &mut filler)?;
        let bytes = self.last_bytes()?;
        match filler.as_slice() {
            [byte] if bytes.len() <= count => bytes.resize(count, *byte)?,
            _ => bail!("no such filling: {text}"),
        }
        Ok(())
    }

    /// Whether the words of a line arrange what the next command finds.
    pub fn is_arranged(&mut self, words: &[&str]) -> Result<bool> {
        self.is_open = false;
        match words {
            [] => {}
            ["case", ..] => self.begin_case(),
            ["file", name] => self.begin_file(name)?,
            ["pieces", whom, count] => self.outside.set_piece(whom, count)?,
            ["refuse", what @ .., call] => self.outside.refuse(what, call)?,
            ["front", text] => self.set_front(text)?,
            _ => return Ok(false),
        }
        Ok(true)
    }

    /// Leaves the files alone that stand before the first case.
    fn begin_case(&mut self) {
        match self.shared {
            None => self.shared = Some(self.files.len()),
            Some(count) => self.files.truncate(count),
        }
    }

    fn begin_file(&mut self, name: &str) -> Result<()> {
        let name = String::from_str(self.alloc, name)?;
        let bytes = Vec::new(self.alloc);
        self.files.push(Given { name, bytes })?;
        self.is_open = true;
        Ok(())
    }

    fn set_front(&mut self, text: &str) -> Result<()> {
        let mut longest = Vec::new(self.alloc);
        push_spelled(text, &mut longest)?;
        self.outside.longest = Some(longest);
        Ok(())
    }

    /// What the next command finds. The one after it finds the files alone.
    pub fn prepared(&mut self) -> Result<Outside> {
        let mut outside = mem::replace(&mut self.outside, Outside::new(self.alloc));
        for file in &self.files {
            outside.add(file.name.as_str(), file.bytes.as_slice())?;
        }
        Ok(outside)
    }

    /// The bytes of the last file of a name.
    pub fn bytes_of(&self, name: &str) -> Result<&[u8]> {
        let mut files = self.files.iter().rev();
        match files.find(|file| file.name.as_str() == name) {
            Some(file) => Ok(file.bytes.as_slice()),
            None => bail!("no such file: {name}"),
        }
    }
}
