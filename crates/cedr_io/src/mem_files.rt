ghost use Rattle.std.specs.Prelude.{◌≡◌, ◌<◌, ◌≤◌, ℕ, List, [], ◌∷◌, ◌++◌, ◌+◌, ◌⊎◌, ◌↔◌, is_some, Some, None, Err, IfOk, OnOk, OnErr, IsErr, IfSome, IsSome, Contains, length, drop, if◌then◌else◌};
ghost use Rattle.std.specs.BTreeMap.{get};
ghost use Rattle.cedr_base.specs.Order.{text_cmp};

use crate::fault::{Failed, OutsideFault};
use crate::files::Files;
use crate::mem_source::give;
use crate::source::Source;
use cedr_base::{OutOfMemory, Text};
use std::alloc::Global;
use std::collections::BTreeMap;

/// Files in memory, for tests. It numbers its finds, and each source its reads, from 1 on, and
/// refuses those that it was asked to refuse.
#[derive(Drop)]
pub struct MemFiles {
    alloc: Global,
    contents: BTreeMap<Text, Text>,
    refused_finds: Vec<u64>,
    refused_reads: Vec<RefusedRead>,
    asked: Vec<Text>,
    piece: usize,
    finds: u64,
    faults: u64,
    ghost gives_some: { 0 < piece },
}

#[derive(Drop)]
struct RefusedRead {
    name: Text,
    call: u64,
}

impl MemFiles {
    ghost use Rattle.cedr_io.specs.Counts.{Rose};
    ghost use Rattle.cedr_io.specs.Memory.{same_name, find_number, piece_of_files, refused_finds, refused_reads, piece_of_source, refused_of_source, read_number};

    /// No file. Reads give up to 4,096 bytes, and no call will be refused.
    pub fn new(alloc: Global) -> MemFiles
        ensures empty { (n : List ℕ) → ⟦<MemFiles as Files>⟧.content result n ≡ None }
        ensures faults { ⟦<MemFiles as Files>⟧.faults result ≡ 0 }
        ensures asked { ⟦<MemFiles as Files>⟧.asked result ≡ [] }
        ensures piece { piece_of_files result ≡ 4096 }
        ensures finds { refused_finds result ≡ [] }
        ensures reads { (n : List ℕ) → refused_reads result n ≡ [] }
        ensures numbered { find_number result ≡ 1 }
    {
        MemFiles {
            alloc,
            contents: BTreeMap::new(alloc),
            refused_finds: Vec::new(alloc),
            refused_reads: Vec::new(alloc),
            asked: Vec::new(alloc),
            piece: 4096,
            finds: 0,
            faults: 0,
        }
    }

    /// Puts these bytes under the name, in place of any that were there.
    pub fn add(&mut self, name: &str, bytes: &[u8]) -> Result<(), OutOfMemory>
        ensures ok { OnOk result ((n : List ℕ) → ⟦<MemFiles as Files>⟧.content self.new n
            ≡ (if same_name name.now n then Some bytes.now else ⟦<MemFiles as Files>⟧.content self.old n)) }
        ensures err { OnErr result ((n : List ℕ) →
            ⟦<MemFiles as Files>⟧.content self.new n ≡ ⟦<MemFiles as Files>⟧.content self.old n) }
        ensures faults { ⟦<MemFiles as Files>⟧.faults self.new ≡ ⟦<MemFiles as Files>⟧.faults self.old }
        ensures asked { ⟦<MemFiles as Files>⟧.asked self.new ≡ ⟦<MemFiles as Files>⟧.asked self.old }
        ensures same_piece { piece_of_files self.new ≡ piece_of_files self.old }
        ensures same_finds { refused_finds self.new ≡ refused_finds self.old }
        ensures same_reads { (n : List ℕ) → refused_reads self.new n ≡ refused_reads self.old n }
        ensures numbered { find_number self.new ≡ find_number self.old }
    {
        let name = Text::from_slice(self.alloc, name.as_bytes())?;
        let bytes = Text::from_slice(self.alloc, bytes)?;
        self.contents.insert(name, bytes)?;
        Ok(())
    }

    /// From now on a read gives at most `n` bytes, of sources that are found later.
    pub fn set_piece(&mut self, n: usize)
        requires { 0 < n }
        ensures piece { piece_of_files self.new ≡ n }
        ensures contents { (m : List ℕ) →
            ⟦<MemFiles as Files>⟧.content self.new m ≡ ⟦<MemFiles as Files>⟧.content self.old m }
        ensures faults { ⟦<MemFiles as Files>⟧.faults self.new ≡ ⟦<MemFiles as Files>⟧.faults self.old }
        ensures asked { ⟦<MemFiles as Files>⟧.asked self.new ≡ ⟦<MemFiles as Files>⟧.asked self.old }
        ensures same_finds { refused_finds self.new ≡ refused_finds self.old }
        ensures same_reads { (n : List ℕ) → refused_reads self.new n ≡ refused_reads self.old n }
        ensures numbered { find_number self.new ≡ find_number self.old }
    {
        self.piece = n;
    }

    /// The find of this number, from 1 on, will be refused.
    pub fn fail_find(&mut self, call: u64) -> Result<(), OutOfMemory>
        ensures refused { OnOk result (refused_finds self.new ≡ refused_finds self.old ++ call ∷ []) }
        ensures err { OnErr result (refused_finds self.new ≡ refused_finds self.old) }
        ensures contents { (m : List ℕ) →
            ⟦<MemFiles as Files>⟧.content self.new m ≡ ⟦<MemFiles as Files>⟧.content self.old m }
        ensures faults { ⟦<MemFiles as Files>⟧.faults self.new ≡ ⟦<MemFiles as Files>⟧.faults self.old }
        ensures asked { ⟦<MemFiles as Files>⟧.asked self.new ≡ ⟦<MemFiles as Files>⟧.asked self.old }
        ensures same_piece { piece_of_files self.new ≡ piece_of_files self.old }
        ensures same_reads { (n : List ℕ) → refused_reads self.new n ≡ refused_reads self.old n }
        ensures numbered { find_number self.new ≡ find_number self.old }
    {
        self.refused_finds.push(call)?;
        Ok(())
    }

    /// The read of this number, from 1 on, of each source that is found under this name later, will be
    /// refused.
    pub fn fail_read(&mut self, name: &str, call: u64) -> Result<(), OutOfMemory>
        ensures refused { OnOk result ((n : List ℕ) → refused_reads self.new n
            ≡ (if same_name name.now n then refused_reads self.old n ++ call ∷ [] else refused_reads self.old n)) }
        ensures err { OnErr result ((n : List ℕ) → refused_reads self.new n ≡ refused_reads self.old n) }
        ensures contents { (m : List ℕ) →
            ⟦<MemFiles as Files>⟧.content self.new m ≡ ⟦<MemFiles as Files>⟧.content self.old m }
        ensures faults { ⟦<MemFiles as Files>⟧.faults self.new ≡ ⟦<MemFiles as Files>⟧.faults self.old }
        ensures asked { ⟦<MemFiles as Files>⟧.asked self.new ≡ ⟦<MemFiles as Files>⟧.asked self.old }
        ensures same_piece { piece_of_files self.new ≡ piece_of_files self.old }
        ensures same_finds { refused_finds self.new ≡ refused_finds self.old }
        ensures numbered { find_number self.new ≡ find_number self.old }
    {
        let name = Text::from_slice(self.alloc, name.as_bytes())?;
        self.refused_reads.push(RefusedRead { name, call })?;
        Ok(())
    }

    /// The names that were looked for, in order.
    pub fn asked(&self) -> &[Text]
        ensures { result.now ≡ ⟦<MemFiles as Files>⟧.asked self.now }
    {
        &self.asked
    }

    fn count_refusal(&mut self)
        ensures counted { Rose self.old.faults self.new.faults }
        ensures others { self.new ≡ record self.old { faults = self.new.faults } }
    {
        self.faults = self.faults.saturating_add(1);
    }

    /// The numbers of the reads under this name that will be refused.
    fn refused_reads_of(&self, name: &Text) -> Result<Vec<u64>, OutOfMemory>
        ensures { IfOk result (λ calls. calls.items ≡ refused_reads self.now name.now) }
    {
        let mut calls = Vec::new(self.alloc);
        for read in &self.refused_reads {
            if read.name == *name {
                calls.push(read.call)?;
            }
        }
        Ok(calls)
    }

    /// A source of what is under the name, where there is something.
    fn source_of(&self, name: &Text) -> Result<Option<ListSource>, OutOfMemory>
        ensures found { IfOk result (λ found. IfSome found (λ s. ⟦<ListSource as Source>⟧.rest s ≡ get text_cmp self.now.contents name.now)) }
        ensures some { IfOk result (λ found. is_some found ≡ is_some (get text_cmp self.now.contents name.now)) }
        ensures fresh { IfOk result (λ found. IfSome found (λ s. ⟦<ListSource as Source>⟧.faults s ≡ 0)) }
        ensures refused { IfOk result (λ found. IfSome found (λ s. refused_of_source s ≡ refused_reads self.now name.now)) }
        ensures first { IfOk result (λ found. IfSome found (λ s. read_number s ≡ 1)) }
        ensures piece { IfOk result (λ found. IfSome found (λ s. piece_of_source s ≡ piece_of_files self.now)) }
    {
        let Some(bytes) = self.contents.get(name) else {
            return Ok(None);
        };
        let bytes = bytes.copy(self.alloc)?;
        let refused = self.refused_reads_of(name)?;
        Ok(Some(ListSource {
            bytes,
            read: 0,
            piece: self.piece,
            refused,
            reads: 0,
            faults: 0,
        }))
    }
}

impl Files for MemFiles {
    ghost use Rattle.std.specs.Prelude.{min};
    ghost use Rattle.cedr_io.specs.Counts.{Counts, count_sum, last_count};
    ghost use Rattle.cedr_io.specs.Asked.{Asks};
    ghost use Rattle.cedr_io.specs.declared.fault.OutsideFault.TheVariants as outside;
    ghost use Rattle.cedr_io.specs.Memory.{find_number, piece_of_files, refused_finds, refused_reads, piece_of_source, refused_of_source, read_number};

    type Source = ListSource;

    ghost content = { λ f name. get text_cmp f.contents name };

    ghost faults = { λ f. f.faults };

    ghost asked = { λ f. f.asked.items };

    fn find(&mut self, name: &[u8]) -> Result<ListSource, OutsideFault>
        ensures found { IfOk result (λ source. ⟦<ListSource as Source>⟧.rest source ≡ get text_cmp self.old.contents name.now) }
        ensures fresh { IfOk result (λ source. ⟦<ListSource as Source>⟧.faults source ≡ 0) }
        ensures counted { Counts result self.old.faults self.new.faults }
        ensures asked { Asks result self.old.asked.items self.new.asked.items name.now }
        ensures contents { (n : List ℕ) → get text_cmp self.new.contents n ≡ get text_cmp self.old.contents n }
        // A find is refused exactly where the name isn't there, or its number was named.
        ensures accepted { OnOk result (IsSome (get text_cmp self.old.contents name.now) × ¬ Contains (refused_finds self.old) (find_number self.old)) }
        ensures refused { result ≡ Err outside.Failed → (get text_cmp self.old.contents name.now ≡ None) ⊎ Contains (refused_finds self.old) (find_number self.old) }
        ensures numbered { find_number self.new ≡ min (find_number self.old + 1) last_count }
        ensures reads { IfOk result (λ source. (refused_of_source source ≡ refused_reads self.old name.now) × (read_number source ≡ 1)) }
        ensures piece { IfOk result (λ source. piece_of_source source ≡ piece_of_files self.old) }
        ensures same_piece { piece_of_files self.new ≡ piece_of_files self.old }
        ensures same_finds { refused_finds self.new ≡ refused_finds self.old }
        ensures same_reads { (n : List ℕ) → refused_reads self.new n ≡ refused_reads self.old n }
    {
        self.finds = self.finds.saturating_add(1);
        let name = Text::from_slice(self.alloc, name)?;
        let found = self.source_of(&name)?;
        self.asked.push(name)?;
        let refused = self.refused_finds.contains(&self.finds);
        match found {
            None => {
                self.count_refusal();
                Err(OutsideFault::Failed)
            }
            Some(_) if refused => {
                self.count_refusal();
                Err(OutsideFault::Failed)
            }
            Some(source) => Ok(source),
        }
    }

    fn give_back(&mut self, source: ListSource)
        ensures counted { self.new.faults ≡ count_sum self.old.faults (⟦<ListSource as Source>⟧.faults source) }
        ensures asked { self.new.asked.items ≡ self.old.asked.items }
        ensures contents { (n : List ℕ) → get text_cmp self.new.contents n ≡ get text_cmp self.old.contents n }
        ensures same_piece { piece_of_files self.new ≡ piece_of_files self.old }
        ensures same_finds { refused_finds self.new ≡ refused_finds self.old }
        ensures same_reads { (n : List ℕ) → refused_reads self.new n ≡ refused_reads self.old n }
        ensures numbered { find_number self.new ≡ find_number self.old }
    {
        self.faults = self.faults.saturating_add(source.faults);
    }
}

/// What `MemFiles` gives to read.
#[derive(Drop)]
pub struct ListSource {
    bytes: Text,
    read: usize,
    piece: usize,
    refused: Vec<u64>,
    reads: u64,
    faults: u64,
    ghost within: { read ≤ length bytes },
    ghost gives_some: { 0 < piece },
}

impl Source for ListSource {
    ghost use Rattle.std.specs.Prelude.{min};
    ghost use Rattle.std.specs.Io.KnownBytes.{ReadConsumes};
    ghost use Rattle.cedr_io.specs.Counts.{CountsRead, last_count};
    ghost use Rattle.cedr_io.specs.Memory.{piece_of_source, refused_of_source, read_number};

    ghost rest = { λ s. Some (drop s.read s.bytes) };

    ghost faults = { λ s. s.faults };

    fn read(&mut self, buf: &mut [u8]) -> Result<usize, Failed>
        requires { 0 < length buf.old }
        ensures within { IfOk result (λ n. n ≤ length buf.new) }
        ensures piece { IfOk result (λ n. n ≤ piece_of_source self.old) }
        ensures bytes { ReadConsumes (Some (drop self.old.read self.old.bytes)) (Some (drop self.new.read self.new.bytes)) result buf.new }
        ensures counted { CountsRead result self.old.faults self.new.faults }
        // A read is refused exactly where its number was named.
        ensures refused { IsErr result ↔ Contains (refused_of_source self.old) (read_number self.old) }
        ensures numbered { read_number self.new ≡ min (read_number self.old + 1) last_count }
        ensures same_piece { piece_of_source self.new ≡ piece_of_source self.old }
        ensures same_refused { refused_of_source self.new ≡ refused_of_source self.old }
    {
        self.reads = self.reads.saturating_add(1);
        if self.refused.contains(&self.reads) {
            self.faults = self.faults.saturating_add(1);
            return Err(Failed);
        }
        Ok(give(self.bytes.bytes(), &mut self.read, self.piece, buf))
    }
}
