use rhythm_ports::{Failed, Shelf, Sink, Source};

/// A shelf, a script or a sink that is lent to a run and looked at afterwards.
#[derive(Drop)]
pub struct Lending<'a, T> {
    pub to: &'a mut T,
}

impl<'a, F: Shelf> Shelf for Lending<'a, F> {
    ghost files = { λ s. F.files s.to.now };

    ghost rest = { λ s. F.rest s.to.now };

    ghost faults = { λ s. F.faults s.to.now };

    ghost strays = { λ s. F.strays s.to.now };

    fn open(&mut self, name: &str) -> Result<(), Failed> {
        self.to.open(name)
    }

    fn read(&mut self, buf: &mut [u8]) -> Result<usize, Failed> {
        self.to.read(buf)
    }

    fn close(&mut self) {
        self.to.close();
    }
}

impl<'a, S: Source> Source for Lending<'a, S> {
    ghost rest = { λ s. S.rest s.to.now };

    ghost faults = { λ s. S.faults s.to.now };

    fn read(&mut self, buf: &mut [u8]) -> Result<usize, Failed> {
        self.to.read(buf)
    }
}

impl<'a, K: Sink> Sink for Lending<'a, K> {
    ghost taken = { λ s. K.taken s.to.now };

    ghost faults = { λ s. K.faults s.to.now };

    fn write(&mut self, piece: &[u8]) -> Result<usize, Failed> {
        self.to.write(piece)
    }
}
