use std::alloc::Global;
use std::io::Read;
use std::{fs, io};

// Where the files of a call are read from, and the heap.
pub trait Files {
    fn heap(&self) -> Global;

    fn file(&self, path: &str) -> io::Result<Vec<u8>>;

    fn standard_input(&self) -> io::Result<Vec<u8>>;
}

impl Files for HostRuntime {
    fn heap(&self) -> Global {
        self.alloc()
    }

    fn file(&self, path: &str) -> io::Result<Vec<u8>> {
        fs::read(self, path)
    }

    fn standard_input(&self) -> io::Result<Vec<u8>> {
        let mut bytes = Vec::new(self.alloc());
        self.stdin().read_to_end(&mut bytes)?;
        Ok(bytes)
    }
}
