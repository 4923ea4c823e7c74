// The lists of a puzzle, as they were read: its lines can be printed.
ghost use Rattle.puzzle.specs.Buffers.{buffers};
ghost use Rattle.trainer.specs.Ready.{Printable};

// The type stands in a file of its own, as a struct with a ghost field imports all that its file's ghost uses name.
#[derive(Drop)]
pub(crate) struct Lists<'a> {
    pub(crate) map: &'a [u64],
    pub(crate) cr3s: &'a [u64],
    pub(crate) words: &'a [u64],
    pub(crate) events: &'a [u64],
    pub(crate) questions: &'a [u64],
    pub(crate) ghost ready: { Printable (buffers map.now cr3s.now words.now events.now questions.now) },
}
