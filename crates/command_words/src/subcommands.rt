//! The commands: their names, their arguments and their help.

/// A command.
pub struct Subcommand {
    pub name: &'static str,
    /// What it does.
    pub about: &'static str,
    /// The end of its help.
    pub after_help: &'static str,
    /// The words that have to be there, in their order.
    pub arguments: &'static [Positional],
    /// The words that may be there, in the order of the help.
    pub options: &'static [LongOption],
}

/// A word that has to be there.
pub struct Positional {
    pub name: &'static str,
    pub help: &'static str,
}

/// A word that begins with two hyphens.
pub struct LongOption {
    pub name: &'static str,
    /// What the help calls its value. A flag has none.
    pub value_name: Option<&'static str>,
    pub help: &'static str,
    /// The option that can't be given with it.
    pub conflicts_with: Option<&'static str>,
}

/// The commands, in the order of the help.
pub static SUBCOMMANDS: [Subcommand; 13] = [
    Subcommand {
        name: "format",
        about: "Makes a volume without files; what VOLUME held before is lost",
        after_help: "Example:\n  cobol format SHOP 1024",
        arguments: &[
            Positional {
                name: "VOLUME",
                help: "The host file that is to be the volume",
            },
            SECTORS,
        ],
        options: &[],
    },
    Subcommand {
        name: "copy",
        about: "Makes a volume with the files of another; NEW is whole or as it was",
        after_help: "Example:\n  cobol copy SHOP SHOP.larger 4096",
        arguments: &[
            Positional {
                name: "OLD",
                help: "The volume whose files are copied",
            },
            Positional {
                name: "NEW",
                help: "The host file that is to be the new volume",
            },
            SECTORS,
        ],
        options: &[],
    },
    Subcommand {
        name: "stat",
        about: "Prints the size and free sectors of a volume, and its files' rows",
        after_help: "Example:\n  cobol stat SHOP",
        arguments: &[VOLUME],
        options: &[],
    },
    Subcommand {
        name: "migrate",
        about: "Gives a volume of trees the newest mark, COBVOL02; its files stay",
        after_help: BEFORE_A_MIGRATION,
        arguments: &[VOLUME],
        options: &[],
    },
    Subcommand {
        name: "load",
        about: "Makes each line of standard input a row of a file",
        after_help: "Example:\n  cobol load SHOP STOCK < stock.rows",
        arguments: &[VOLUME, FILE_NAME],
        options: &[],
    },
    Subcommand {
        name: "unload",
        about: "Prints the rows of a file, a line each, in the form that `load` reads",
        after_help: "Example:\n  cobol unload SHOP STOCK > stock.rows",
        arguments: &[VOLUME, FILE_NAME],
        options: &[],
    },
    Subcommand {
        name: "compile",
        about: "Compiles a source; a refused source leaves IMAGE as it is",
        after_help: "Example:\n  cobol compile stock.cob STOCK.image",
        arguments: &[
            SOURCE,
            Positional {
                name: "IMAGE",
                help: "The host file that the image is written to",
            },
        ],
        options: &[],
    },
    Subcommand {
        name: "run",
        about: "Runs an image over a volume",
        after_help: "Example:\n  cobol run STOCK.image SHOP --date 261127 < stock.in",
        arguments: &[
            Positional {
                name: "IMAGE",
                help: "An image that `compile` wrote",
            },
            VOLUME,
        ],
        options: &[
            LongOption {
                name: "budget",
                value_name: Some("N"),
                help: "How many steps the run may take, in place of 1000000000",
                conflicts_with: None,
            },
            LongOption {
                name: "date",
                value_name: Some("YYMMDD"),
                help: "The date that the program receives, in place of 000000",
                conflicts_with: None,
            },
            LongOption {
                name: "today",
                value_name: None,
                help: "The program receives the day of this machine",
                conflicts_with: Some("date"),
            },
            LongOption {
                name: "trace-files",
                value_name: None,
                help: "Print each file statement and status on standard error",
                conflicts_with: None,
            },
        ],
    },
    Subcommand {
        name: "list",
        about: "Lists the files of a volume: name, organization, record length, rows",
        after_help: "Example:\n  cobol list SHOP",
        arguments: &[VOLUME],
        options: &[],
    },
    Subcommand {
        name: "dump",
        about: "Prints the rows of a file, a line each, in the order of the prime key",
        after_help: "Example:\n  cobol dump SHOP STOCK",
        arguments: &[VOLUME, FILE_NAME],
        options: &[],
    },
    Subcommand {
        name: "check",
        about: "Checks a source, and shows what is wrong and what to do",
        after_help: "Example:\n  cobol check stock.cob",
        arguments: &[SOURCE],
        options: &[],
    },
    Subcommand {
        name: "explain",
        about: "Explains the number of a fault, a refusal or a FILE STATUS",
        after_help: "Example:\n  cobol explain 40",
        arguments: &[Positional {
            name: "N",
            help: "The number that was printed, such as 40",
        }],
        options: &[],
    },
    Subcommand {
        name: "layout",
        about: "Shows the place and size of each item and file of a source",
        after_help: "Example:\n  cobol layout stock.cob",
        arguments: &[SOURCE],
        options: &[],
    },
];

/// A volume that is there.
const VOLUME: Positional = Positional {
    name: "VOLUME",
    help: "A volume that `format` made",
};

/// A file of a volume.
const FILE_NAME: Positional = Positional {
    name: "NAME",
    help: "The file's name; write `--` before VOLUME if it begins with a hyphen",
};

/// A source.
const SOURCE: Positional = Positional {
    name: "SOURCE",
    help: "The program's text, in fixed format",
};

/// The size of a volume.
const SECTORS: Positional = Positional {
    name: "SECTORS",
    help: "Its size, 1024 to 921600 sectors of 4096 bytes",
};

/// The end of the help of `migrate`.
const BEFORE_A_MIGRATION: &str =
    "An earlier version of this program refuses VOLUME then, so copy it first.

Example:
  cobol migrate SHOP";
