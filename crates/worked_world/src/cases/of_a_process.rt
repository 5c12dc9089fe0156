//! The real world over pipes and over files, and words that aren't text.
ghost use Rattle.std.specs.Prelude.{Some};

use outside_world::{Failed, FileName, Outside};
use process_world::{FileWorld, TryLock, WordsError, letter_of, words_of};
use std::alloc::Allocator;
use std::cell::Cell;
use std::env::FillError;
use std::fmt::Display;
use std::fs::{Metadata, OpenFile, OpenOptions, TryLockError, remove_file};
use std::io;
use std::io::{BufRead, ErrorKind, Lines, Read, Seek, SeekFrom, Write};
use std::os::unix::fs::FileExt;
use std::rt::{Env, Files};
use std::test::Fail;

// What every source gives that doesn't fail.
const LINE: &[u8] = b"realm\n";

// How much of the line a source has given, or none where it fails.
#[derive(Clone, Copy)]
struct Source(Option<usize>);

impl Read for Source {
    fn read(&mut self, buf: &mut [u8]) -> io::Result<usize> {
        let mut rest = self.fill_buf()?;
        let size = rest.read(buf)?;
        self.consume(size);
        Ok(size)
    }
}

impl BufRead for Source {
    fn fill_buf(&mut self) -> io::Result<&[u8]> {
        match self.0 {
            Some(given) => Ok(&LINE[given.min(LINE.len())..]),
            None => Err(io::Error::from(ErrorKind::Other)),
        }
    }

    fn consume(&mut self, amount: usize) {
        if let Some(given) = self.0 {
            self.0 = Some(given.saturating_add(amount));
        }
    }
}

// How far the first call on a file has come: the file was opened, and locked, then the folder was opened, and synced.
#[derive(Clone, Copy, PartialEq, Eq)]
enum Stage {
    Begun,
    FileOpened,
    FileLocked,
    FolderOpened,
    FolderSynced,
}

// Goes on to this stage, where the one before it has been come to.
fn advance(stage: &Cell<Stage>, from: Stage, to: Stage) {
    if stage.get() == from {
        stage.set(to);
    }
}

// What every file holds.
const TEXT: &[u8] = b"abcdefg";

// A file, or the folder. A read and a write move two bytes a call at most, and no byte comes to a disk.
#[derive(Drop)]
struct Fake<'a> {
    is_folder: bool,
    is_free: bool,
    is_held: bool,
    stage: &'a Cell<Stage>,
}

impl<'a> Read for Fake<'a> {
    fn read(&mut self, _buf: &mut [u8]) -> io::Result<usize> {
        Ok(0)
    }
}

impl<'a> Write for Fake<'a> {
    fn write(&mut self, buf: &[u8]) -> io::Result<usize> {
        Ok(buf.len().min(2))
    }

    fn flush(&mut self) -> io::Result<()> {
        Ok(())
    }
}

impl<'a> Seek for Fake<'a> {
    fn seek(&mut self, _to: SeekFrom) -> io::Result<u64> {
        Ok(0)
    }
}

impl<'a> FileExt for Fake<'a> {
    fn read_at(&self, buf: &mut [u8], offset: u64) -> io::Result<usize> {
        let begin = offset.min(TEXT.len() as u64) as usize;
        let end = begin.saturating_add(2).min(TEXT.len());
        let mut rest = &TEXT[begin..end];
        rest.read(buf)
    }

    fn write_at(&self, buf: &[u8], _offset: u64) -> io::Result<usize> {
        Ok(buf.len().min(2))
    }
}

impl<'a> TryLock for Fake<'a> {
    ghost is_held = { λ file. Some file.is_held };

    fn try_lock(&mut self) -> Result<(), TryLockError> {
        if !self.is_free {
            return Err(TryLockError::WouldBlock);
        }
        advance(self.stage, Stage::FileOpened, Stage::FileLocked);
        self.is_held = true;
        Ok(())
    }
}

impl<'a> OpenFile for Fake<'a> {
    fn metadata(&self) -> io::Result<Metadata> {
        no_file()
    }

    fn set_len(&self, _size: u64) -> io::Result<()> {
        no_file()
    }

    fn sync_all(&self) -> io::Result<()> {
        if self.is_folder {
            advance(self.stage, Stage::FolderOpened, Stage::FolderSynced);
        }
        Ok(())
    }

    fn sync_data(&self) -> io::Result<()> {
        Err(io::Error::from(ErrorKind::Other))
    }
}

// A runtime with this source, a sink that takes so many bytes a call or fails, and a folder in which just the
// file of this name can be opened or made, and can be locked where it is free.
#[derive(Drop)]
struct Pipes<'a> {
    source: Source,
    most: Option<usize>,
    name: &'static str,
    is_free: bool,
    stage: &'a Cell<Stage>,
}

impl<'a> Input for Pipes<'a> {
    type Reader = Source;

    fn read_line<A: Allocator + Clone>(&self, _buf: &mut String<A>) -> io::Result<usize> {
        Err(io::Error::from(ErrorKind::Other))
    }

    fn lines<A: Allocator>(&self, alloc: A) -> Lines<Source, A> {
        self.source.lines(alloc)
    }

    fn reader(&self) -> Source {
        self.source
    }
}

impl<'a> Print for Pipes<'a> {
    fn print<D: Display + Drop>(&self, _value: D) -> io::Result<()> {
        Ok(())
    }

    fn println<D: Display + Drop>(&self, _value: D) -> io::Result<()> {
        Ok(())
    }

    fn write_all(&self, _bytes: &[u8]) -> io::Result<()> {
        Ok(())
    }

    fn write_some(&self, bytes: &[u8]) -> io::Result<usize> {
        match self.most {
            Some(most) => Ok(most.min(bytes.len())),
            None => Err(io::Error::from(ErrorKind::BrokenPipe)),
        }
    }
}

impl<'a> Pipes<'a> {
    fn opened(&self, is_folder: bool) -> Fake<'a> {
        Fake {
            is_folder,
            is_free: self.is_free,
            is_held: false,
            stage: self.stage,
        }
    }
}

fn no_file<T>() -> io::Result<T> {
    Err(io::Error::from(ErrorKind::NotFound))
}

impl<'a> Files for Pipes<'a> {
    type File = Fake<'a>;

    type Dir = Source;

    fn open_file(&self, _how: &OpenOptions, path: &str) -> io::Result<Fake<'a>> {
        if path == "." {
            advance(self.stage, Stage::FileLocked, Stage::FolderOpened);
            return Ok(self.opened(true));
        }
        if path == self.name {
            advance(self.stage, Stage::Begun, Stage::FileOpened);
            return Ok(self.opened(false));
        }
        no_file()
    }

    fn open_dir(&self, _path: &str) -> io::Result<Source> {
        no_file()
    }

    fn metadata(&self, _path: &str) -> io::Result<Metadata> {
        no_file()
    }

    fn symlink_metadata(&self, _path: &str) -> io::Result<Metadata> {
        no_file()
    }

    fn copy(&self, _from: &str, _to: &str) -> io::Result<u64> {
        no_file()
    }

    fn rename(&self, _from: &str, _to: &str) -> io::Result<()> {
        no_file()
    }

    fn remove_file(&self, _path: &str) -> io::Result<()> {
        no_file()
    }

    fn create_dir(&self, _path: &str) -> io::Result<()> {
        no_file()
    }

    fn remove_dir(&self, _path: &str) -> io::Result<()> {
        no_file()
    }

    fn remove_dir_all<B: Allocator>(&self, _alloc: B, _path: &str) -> io::Result<()> {
        no_file()
    }
}

// A runtime whose one word isn't UTF-8.
#[derive(Drop)]
struct NoText;

impl Env for NoText {
    fn arg(&self, i: usize, buf: &mut [u8]) -> Result<usize, FillError> {
        if i > 0 || buf.is_empty() {
            return Err(FillError::NotPresent);
        }
        buf[0] = 0xff;
        Ok(1)
    }

    fn var(&self, _name: &str, _buf: &mut [u8]) -> Result<usize, FillError> {
        Err(FillError::NotPresent)
    }

    fn var_at(&self, _i: usize, _buf: &mut [u8]) -> Result<usize, FillError> {
        Err(FillError::NotPresent)
    }
}

#[test]
fn a_word_that_is_no_text_is_refused(rt: HostRuntime) {
    let found = words_of(&(NoText, rt.alloc())).err();
    assert!(rt; found == Some(WordsError::NotText));
}

#[test]
fn each_file_has_its_letter(rt: HostRuntime) {
    assert!(rt; letter_of(FileName::A) == "a" && letter_of(FileName::B) == "b");
}

// How many bytes the sink takes at most, and how many of three a give answers; none where either fails.
static GIFTS: [(Option<usize>, Option<usize>); 4] = [
    (Some(2), Some(2)),
    (Some(9), Some(3)),
    (Some(0), None),
    (None, None),
];

#[test]
fn a_give_answers_what_was_written(rt: HostRuntime) {
    let stage = Cell::new(Stage::Begun);
    for (written, answer) in GIFTS.iter() {
        let mut world = FileWorld::new(Pipes {
            source: Source(None),
            most: *written,
            name: "",
            is_free: true,
            stage: &stage,
        });
        let given = world.give(b"abc").ok();
        assert!(rt; given == *answer, "at {written:?}");
    }
}

// A world with this source, and a folder with the file of this name, which is free or not.
fn world_of<'a>(
    given: Option<usize>,
    name: &'static str,
    is_free: bool,
    stage: &'a Cell<Stage>,
) -> FileWorld<Pipes<'a>> {
    FileWorld::new(Pipes {
        source: Source(given),
        most: None,
        name,
        is_free,
        stage,
    })
}

// Whether a take answers so many bytes, or fails where none is wanted.
fn takes(world: &mut FileWorld<Pipes<'_>>, wanted: Option<&[u8]>) -> bool {
    let mut buf = [0; 8];
    if world.has_failed() {
        return false;
    }
    match (world.take(&mut buf), wanted) {
        (Ok(count), Some(bytes)) => &buf[..count] == bytes,
        (Err(Failed), None) => true,
        _ => false,
    }
}

#[test]
fn a_take_answers_what_was_read(rt: HostRuntime) {
    let stage = Cell::new(Stage::Begun);
    let mut world = world_of(Some(0), "", true, &stage);
    assert!(rt; takes(&mut world, Some(b"realm\n")));
    assert!(rt; takes(&mut world, Some(b"")));
    assert!(rt; takes(&mut world_of(None, "", true, &stage), None));
}

// A call on a file.
#[derive(Clone, Copy)]
enum Call {
    Size,
    Read,
    Write,
    Sync,
}

// How far the call comes in a folder that has a file of this name alone, free or not, and whether it succeeds.
fn outcome(call: Call, file: FileName, name: &'static str, is_free: bool) -> (Stage, bool) {
    let stage = Cell::new(Stage::Begun);
    let mut world = world_of(None, name, is_free, &stage);
    if world.has_failed() {
        return (Stage::Begun, false);
    }
    let mut buf = [0; 4];
    let succeeds = match call {
        Call::Size => world.size(file).is_ok(),
        Call::Read => world.read_at(file, 0, &mut buf).is_ok(),
        Call::Write => world.write_at(file, 0, b"abc").is_ok(),
        Call::Sync => world.sync(file).is_ok(),
    };
    (stage.get(), succeeds)
}

// The calls, and whether each succeeds on a file of which no length is known, and no byte comes to a disk.
static CALLS: [(Call, bool); 4] = [
    (Call::Size, false),
    (Call::Read, true),
    (Call::Write, true),
    (Call::Sync, false),
];

// Each file, the name that it has, and names of other files.
static NAMES: [(FileName, &str, [&str; 3]); 2] = [
    (FileName::A, "realm.a", ["realm.b", "realm.A", ""]),
    (FileName::B, "realm.b", ["realm.a", "realm.B", ""]),
];

#[test]
fn a_file_is_opened_by_its_name_and_locked_and_then_the_folder_is_synced(rt: HostRuntime) {
    for (file, name, others) in NAMES.iter() {
        for (call, succeeds) in CALLS.iter() {
            assert!(rt; outcome(*call, *file, name, true) == (Stage::FolderSynced, *succeeds));
            assert!(rt; outcome(*call, *file, name, false) == (Stage::FileOpened, false));
            for other in others.iter() {
                assert!(rt;
                    outcome(*call, *file, other, true) == (Stage::Begun, false),
                    "at {other}"
                );
            }
        }
    }
}

// Where a read begins, how much room it has, and what it moves. The file gives two bytes a call.
static READS: [(u64, usize, &[u8]); 4] = [
    (0, 7, b"abcdefg"),
    (1, 5, b"bcdef"),
    (3, 8, b"defg"),
    (7, 3, b""),
];

#[test]
fn a_read_goes_on_to_the_end_of_the_file(rt: HostRuntime) -> Result<(), Fail> {
    for (at, room, wanted) in READS.iter() {
        let stage = Cell::new(Stage::Begun);
        let mut world = world_of(None, "realm.a", true, &stage);
        assert!(rt; !world.has_failed());
        let mut buf = [0; 8];
        let room = buf.len().min(*room);
        let count = world.read_at(FileName::A, *at, &mut buf[..room])?;
        assert!(rt; &buf[..count] == *wanted, "at {at}");
    }
    Ok(())
}

// Writes to both files of the folder that the test runs in. How long the one was before.
fn write_two(rt: HostRuntime) -> Result<u64, Failed> {
    let mut world = FileWorld::new(rt);
    let before = world.size(FileName::A)?;
    world.write_at(FileName::A, 0, b"abcd")?;
    world.write_at(FileName::A, 2, b"xyz")?;
    world.write_at(FileName::B, 0, b"other")?;
    world.sync(FileName::A)?;
    Ok(before)
}

// What stands then in a file from a place on.
static WRITTEN: [(FileName, u64, &[u8]); 3] = [
    (FileName::A, 1, b"bxyz"),
    (FileName::A, 5, b""),
    (FileName::B, 0, b"other"),
];

// Whether a read from this place on moves these bytes.
fn reads(world: &mut FileWorld<HostRuntime>, file: FileName, at: u64, wanted: &[u8]) -> bool {
    let mut buf = [0; 8];
    if world.has_failed() {
        return false;
    }
    match world.read_at(file, at, &mut buf) {
        Ok(count) => &buf[..count] == wanted,
        Err(Failed) => false,
    }
}

#[test]
fn two_files_keep_what_is_written(rt: HostRuntime) -> Result<(), Fail> {
    clear(&rt);
    let copy: HostRuntime = rt.clone()?;
    assert!(rt; write_two(copy) == Ok(0));
    let copy: HostRuntime = rt.clone()?;
    let mut world = FileWorld::new(copy);
    assert!(rt; world.size(FileName::A)? == 5);
    for (file, at, wanted) in WRITTEN.iter() {
        assert!(rt; reads(&mut world, *file, *at, wanted), "at {at}");
    }
    clear(&rt);
    Ok(())
}

// Whether a new world can open this file of the folder that the test runs in.
fn opens(rt: &HostRuntime, file: FileName) -> Result<bool, Fail> {
    let copy: HostRuntime = rt.clone()?;
    let mut world = FileWorld::new(copy);
    Ok(world.size(file).is_ok())
}

#[test]
fn a_file_that_one_world_has_open_is_shut_to_others(rt: HostRuntime) -> Result<(), Fail> {
    clear(&rt);
    for file in [FileName::A, FileName::B] {
        let copy: HostRuntime = rt.clone()?;
        let mut first = FileWorld::new(copy);
        first.write_at(file, 0, b"abcd")?;
        assert!(rt; !opens(&rt, file)? && !opens(&rt, file)?);
        assert!(rt; opens(&rt, other_than(file))?);
        assert!(rt; first.size(file)? == 4);
        drop(first);
        assert!(rt; opens(&rt, file)?);
    }
    clear(&rt);
    Ok(())
}

fn other_than(file: FileName) -> FileName {
    match file {
        FileName::A => FileName::B,
        FileName::B => FileName::A,
    }
}

fn clear<R: Files>(rt: &R) {
    let _ = remove_file(rt, "realm.a");
    let _ = remove_file(rt, "realm.b");
}
