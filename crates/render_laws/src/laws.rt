ghost use Rattle.render_laws.specs.Laws.{RenderedFilesReadBack};

/// The file of the events of a score is read without a fault; its notes are exactly the kept notes of the events, and its
/// tempos, signatures and keys those of the bars. Whatever performance it loads to has exactly these.
pub fn rendered_files_read_back()
    ensures { RenderedFilesReadBack }
{}
