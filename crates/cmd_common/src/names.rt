// The files that a command reads, and their names.
ghost use Rattle.std.specs.Prelude.{◌≡◌};
ghost use Rattle.cmd_common.specs.Names.{name_of, names_read, one_name, two_names};

/// A file that a command reads.
#[derive(Clone, Copy)]
pub enum InputFile {
    /// The file that is read first: a source, or the one file of a command.
    First,
    /// The text beside a source.
    Text,
    /// The console's input of a run.
    Console,
    /// The disk of a run.
    Disk,
    /// The bytes of a run's ports.
    Ports,
}

/// The names of the files that a command reads. The name is empty where it reads no such file.
#[derive(Clone, Copy)]
pub struct InputNames<'a> {
    pub first: &'a str,
    pub text: &'a str,
    pub console: &'a str,
    pub disk: &'a str,
    pub ports: &'a str,
}

impl<'a> InputNames<'a> {
    /// Of a command that reads one file.
    pub fn one(name: &'a str) -> InputNames<'a>
        ensures { names_read result ≡ one_name name.now }
    {
        InputNames::two(name, "")
    }

    /// Of a command that reads a source, and a text beside it.
    pub fn two(source: &'a str, text: &'a str) -> InputNames<'a>
        ensures { names_read result ≡ two_names source.now text.now }
    {
        InputNames {
            first: source,
            text,
            console: "",
            disk: "",
            ports: "",
        }
    }

    /// The name of a file.
    pub(crate) fn name(&self, file: InputFile) -> &'a str
        ensures { result.now ≡ name_of (names_read self.now) file }
    {
        match file {
            InputFile::First => self.first,
            InputFile::Text => self.text,
            InputFile::Console => self.console,
            InputFile::Disk => self.disk,
            InputFile::Ports => self.ports,
        }
    }
}
