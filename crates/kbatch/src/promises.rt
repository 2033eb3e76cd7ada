//! Laws of batches. They do nothing.

ghost use Rattle.std.specs.Prelude.{◌≡◌, ℕ, List, drop};
ghost use Rattle.kbatch.specs.declared.record.Record.{Record};
ghost use Rattle.kbatch.specs.Batch.{IsBatch};
ghost use Rattle.kbatch.specs.Head.{head_size};
ghost use Rattle.kbatch.specs.Written.{written};

/// Law: bytes are a batch of at most one list of records, so reading what was written gives the same records. And writing
/// what was read gives the same bytes after the header.
pub fn written_is_read()
    ensures once { (bytes : List ℕ) (records others : List Record) → IsBatch bytes records → IsBatch bytes others
        → records ≡ others }
    ensures again { (bytes : List ℕ) (records : List Record) → IsBatch bytes records
        → drop head_size (written records) ≡ drop head_size bytes }
{}
