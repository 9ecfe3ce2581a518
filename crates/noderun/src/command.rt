// The command line.

/// What the program is asked to do.
#[derive(Clone, Copy)]
pub enum Command<'a> {
    /// The script on standard input.
    Script,
    ScriptFile(&'a str),
    List(&'a str),
    Help,
    Wrong,
}

impl<'a> Command<'a> {
    /// From the words behind the program's name.
    pub fn of(words: &'a [String]) -> Command<'a> {
        match words {
            [] => Command::Script,
            [only] => Command::of_one(only.as_str()),
            [first, path] if first.as_str() == "list" => Command::List(path.as_str()),
            _ => Command::Wrong,
        }
    }

    /// A word that begins with `-` is never a file's name; a script in a file `list` is asked for as `./list`.
    fn of_one(word: &'a str) -> Command<'a> {
        if word == "-h" || word == "--help" {
            Command::Help
        } else if word == "list" || word.starts_with('-') {
            Command::Wrong
        } else {
            Command::ScriptFile(word)
        }
    }
}
