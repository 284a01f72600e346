ghost use Rattle.smf_laws.specs.Laws.{FilesReadBack, QuantitiesReadBack, TracksReadBack};

/// A quantity is read as its number.
pub fn quantities_read_back()
    ensures { QuantitiesReadBack }
{}

/// The content of a track is read as the track.
pub fn tracks_read_back()
    ensures { TracksReadBack }
{}

/// The bytes of a file are read as the file, without a fault.
pub fn files_read_back()
    ensures { FilesReadBack }
{}
