ghost use Rattle.smf_writer.specs.Laws.{RenderedFilesAreOne};

/// The events of a score have one file.
pub fn rendered_files_are_one()
    ensures { RenderedFilesAreOne }
{}
