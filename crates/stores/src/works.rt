//! What a work file does: opening, and the calls of a store.

ghost use Rattle.std.specs.Prelude.{◌≡◌, ℕ, ◌+◌, ◌*◌, ◌<◌, ◌≤◌, cond, List, [], ◌∷◌, length, Some, None, vec_len, IfOk, MatchResult};
ghost use Rattle.stores.specs.Faults.{number, refused};
ghost use Rattle.stores.specs.declared.faults.StoreFault.TheVariants.{NotHeld};
ghost use Rattle.stores.specs.Files.{file_refusal, file_of, meant_by};
ghost use Rattle.stores.specs.Meaning.{with_page};
ghost use Rattle.stores.specs.Parts.{part_of};

use crate::faults::StoreFault;
use crate::file::WorkFile;
use crate::pages::{is_page_size, lay};
use crate::store::Store;
use keys::PageNo;

const MOST_PAGES: usize = 1_048_576;

impl WorkFile {
    /// The questions of opening the bytes as a work file with pages of `page_size` bytes.
    pub fn check(bytes: &[u8], page_size: usize) -> Result<(), StoreFault>
        ensures { refused result ≡ file_refusal page_size (length bytes.now) }
    {
        if !is_page_size(page_size) {
            return Err(StoreFault::PageSize);
        }
        if bytes.len() % page_size != 0 || bytes.len() / page_size > MOST_PAGES {
            return Err(StoreFault::FileLength);
        }
        Ok(())
    }

    /// The work file over the bytes, or why they are refused, with the bytes.
    pub fn new(bytes: Vec<u8>, page_size: usize) -> Result<WorkFile, (StoreFault, Vec<u8>)>
        ensures answer { MatchResult result (λ _. file_refusal page_size (vec_len bytes) ≡ None) (λ r. file_refusal page_size (vec_len bytes) ≡ Some (number r.0)) }
        ensures meaning { IfOk result (λ w. meant_by w ≡ file_of page_size bytes.items) }
        ensures bytes { MatchResult result (λ w. w.bytes ≡ bytes) (λ r. r.1 ≡ bytes) }
    {
        match WorkFile::check(bytes.as_slice(), page_size) {
            Ok(()) => Ok(WorkFile::open(bytes, page_size)),
            Err(fault) => Err((fault, bytes)),
        }
    }

    /// The work file over the bytes; `check` has said yes to them.
    pub fn open(bytes: Vec<u8>, page_size: usize) -> WorkFile
        requires { file_refusal page_size (vec_len bytes) ≡ None }
        ensures meaning { meant_by result ≡ file_of page_size bytes.items }
        ensures bytes { result.bytes ≡ bytes }
    {
        WorkFile { bytes, page_size }
    }

    /// All bytes, page after page.
    pub fn bytes(&self) -> &[u8]
        ensures { result.now ≡ self.now.bytes.items }
    {
        self.bytes.as_slice()
    }

    /// Gives the bytes back.
    pub fn into_bytes(self) -> Vec<u8>
        ensures { result ≡ self.bytes }
    {
        let WorkFile { bytes, .. } = self;
        bytes
    }

    // The key's page, if it lies within the bytes.
    fn page(&self, key: &PageNo) -> Result<&[u8], StoreFault>
        ensures { MatchResult result
            (λ page. (page.now ≡ part_of self.now.page_size self.now.bytes.items key.now.0) × (key.now.0 * self.now.page_size + self.now.page_size ≤ vec_len self.now.bytes))
            (λ f. (f ≡ NotHeld) × (vec_len self.now.bytes < key.now.0 * self.now.page_size + self.now.page_size)) }
    {
        let at = key.0 as usize * self.page_size;
        self.bytes
            .get(at..at + self.page_size)
            .ok_or(StoreFault::NotHeld)
    }

    // Lays the page in the place of the key's.
    fn put(&mut self, key: &PageNo, page: &[u8])
        requires held { key.now.0 * self.old.page_size + self.old.page_size ≤ vec_len self.old.bytes }
        requires whole { length page.now ≡ self.old.page_size }
        ensures { meant_by self.new ≡ with_page (key.now.0 ∷ []) page.now (meant_by self.old) }
    {
        let at = key.0 as usize * self.page_size;
        lay(self.bytes.as_mut_slice(), at, page);
    }
}

// stays: `holds` and `read` read as the bundle's do. A body in the trait would ask every store to have its pages as bytes,
// and a function for both would be as long as what it replaces.
impl Store<PageNo> for WorkFile {
    ghost meant = { meant_by };

    fn page_size(&self) -> usize {
        self.page_size
    }

    fn is_open(&self) -> bool {
        true
    }

    fn holds(&self, key: &PageNo) -> bool {
        self.page(key).is_ok()
    }

    fn read(&mut self, key: &PageNo, buffer: &mut [u8]) -> Result<(), StoreFault> {
        if buffer.len() != self.page_size {
            return Err(StoreFault::BufferLength);
        }
        buffer.copy_from_slice(self.page(key)?);
        Ok(())
    }

    fn write(&mut self, key: &PageNo, page: &[u8]) -> Result<(), StoreFault> {
        if page.len() != self.page_size {
            return Err(StoreFault::BufferLength);
        }
        self.page(key)?;
        self.put(key, page);
        Ok(())
    }
}
