//! Opening files, with a log of the calls.

ghost use Rattle.std.specs.Prelude.{◌≡◌, [], None, Some, IfOk, is_some, true};
ghost use Rattle.std.specs.Io.Buffered.{writer_buffer, writer_inner};
ghost use Rattle.crx_program.specs.meaning.Calls.{options_to_read, with_call};
ghost use Rattle.crx_program.specs.meaning.Jobs.{options_of_target};
ghost use Rattle.crx_program.specs.meaning.Streams.{IsFreshlyOpened};

use super::{FileBuffer, Log, Logged, SourceFile, TargetFile};
use crx_lines::{Std, Uninterrupted, open_file};
use crx_runs::UntilFailure;
use std::fs::OpenOptions;
use std::io;
use std::rt::Files;

/// The files of a machine, and a log of the calls that opened one. Code that has this value but not the
/// machine can't open a file without the log.
#[derive(Drop)]
pub struct Opener<'a, H: Files> {
    files: &'a H,
    log: Log,
}

impl<'a, H: Files> Opener<'a, H> {
    /// Returns the files of a machine, with an empty log.
    pub fn new(files: &'a H) -> Opener<'a, H>
        ensures calls { result.log.calls ≡ [] }
    {
        Opener {
            files,
            log: Log::new(),
        }
    }

    /// Opens the file `name` for reading, and logs the call and its name. Returns the system's error, or
    /// `IsADirectory` for a folder. Only this call and [`Opener::open_to_write`] return a device with a name,
    /// the one passed to the system.
    pub fn open_to_read(&mut self, name: &str) -> io::Result<SourceFile<H::File>>
        ensures calls { self.new.log.calls ≡ with_call self.old.log.calls name.now options_to_read }
        ensures opened { IfOk result (IsFreshlyOpened name.now None) }
        ensures unread { IfOk result (λ device. device.inner.is_unread ≡ true) }
        ensures ends { IfOk result (λ device. device.inner.ends ≡ 0) }
    {
        let mut how = OpenOptions::new();
        how.read(true);
        self.log.add_call(name.as_bytes(), &how);
        let inner = open_file(self.files, name)?;
        let mut device = Logged::new(inner);
        device.opening.name.add(name.as_bytes());
        Ok(device)
    }

    /// Opens the file `name` for writing through `buffer`, which is empty, and logs the call. A file that
    /// exists is emptied if `force` is set; otherwise `AlreadyExists` is returned. A missing file is made.
    /// Returns the system's error; then `buffer` is dropped.
    pub fn open_to_write(
        &mut self,
        force: bool,
        name: &str,
        buffer: FileBuffer<H::File>,
    ) -> io::Result<TargetFile<H::File>>
        requires empty { writer_buffer buffer ≡ [] }
        ensures calls { self.new.log.calls ≡ with_call self.old.log.calls name.now (options_of_target force) }
        ensures opened { IfOk result (IsFreshlyOpened name.now (Some (options_of_target force))) }
        ensures empty { IfOk result (λ device. writer_buffer device.inner.inner ≡ []) }
        ensures file { IfOk result (λ device. is_some (writer_inner device.inner.inner).writer ≡ true) }
    {
        let mut how = OpenOptions::new();
        how.write(true);
        how.create(force);
        how.truncate(force);
        how.create_new(!force);
        self.log.add_call(name.as_bytes(), &how);
        let file = how.open(self.files, name)?;
        let mut filled = buffer;
        filled.get_mut().writer = Some(UntilFailure::new(Uninterrupted::new(file)));
        let mut device = Logged::new(Std::new(filled));
        device.opening.name.add(name.as_bytes());
        device.opening.how = Some(how);
        Ok(device)
    }
}
