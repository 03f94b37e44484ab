// Includes of all forms, by the directories of the words (ISO C 6.10.2; `#include_next` as in GCC's documentation).
use crate::checked::{Case, Node};
use case_texts::Stands::{Dir, File};

// Sources that include names in quotes and in angles, and directories that hold the files of these names.
const QUOTES: [Node<'static>; 11] = [
    ("/w", Dir, ""),
    ("/w/q", Dir, ""),
    ("/w/q/x.h", File, "int q;\n"),
    ("/w/q/y.h", File, "int y;\n"),
    ("/w/s", Dir, ""),
    ("/w/s/x.h", File, "int s;\n"),
    ("/w/src", Dir, ""),
    ("/w/src/angle.c", File, "#include <x.h>\n"),
    ("/w/src/quote.c", File, "#include \"x.h\"\n"),
    ("/w/src/there.c", File, "#include \"y.h\"\n"),
    ("/w/src/y.h", File, "int here;\n"),
];

pub const CASES: [Case<'static>; 5] = [
    Case {
        name: "the next file of a name",
        nodes: &[
            ("/w", Dir, ""),
            ("/w/a", Dir, ""),
            ("/w/a.c", File, "#include <x.h>\n"),
            ("/w/a/x.h", File, "#include_next <x.h>\n"),
            ("/w/b", Dir, ""),
            ("/w/b/x.h", File, "int b;\n"),
            ("/w/c", Dir, ""),
            ("/w/c/x.h", File, "#include_next <x.h>\n"),
            ("/w/n.c", File, "#include_next <x.h>\n"),
        ],
        rows: &[
            (
                "a.c -Ia -Ib",
                "T# 1 \"/w/a.c\"\n# 1 \"/w/a/x.h\" 1\n# 1 \"/w/b/x.h\" 1\nint b;\n# 2 \"/w/a/x.h\" 2\n# 2 \"/w/a.c\" 2\n",
            ),
            (
                "n.c -Ia -Ib",
                "T# 1 \"/w/n.c\"\n# 1 \"/w/a/x.h\" 1\n# 1 \"/w/b/x.h\" 1\nint b;\n# 2 \"/w/a/x.h\" 2\n# 2 \"/w/n.c\" 2\n",
            ),
            ("a.c -Ia -Ic", "D/w/c/x.h:1: error: cannot find <x.h>"),
            ("a.c", "D/w/a.c:1: error: cannot find <x.h>"),
        ],
    },
    Case {
        name: "names in quotes and in angles",
        nodes: &QUOTES,
        rows: &[
            (
                "src/quote.c -iquote q -isystem s",
                "T# 1 \"/w/src/quote.c\"\n# 1 \"/w/q/x.h\" 1\nint q;\n# 2 \"/w/src/quote.c\" 2\n",
            ),
            (
                "src/angle.c -iquote q -isystem s",
                "T# 1 \"/w/src/angle.c\"\n# 1 \"/w/s/x.h\" 1\nint s;\n# 2 \"/w/src/angle.c\" 2\n",
            ),
            (
                "-idirafter s src/angle.c -Iq",
                "T# 1 \"/w/src/angle.c\"\n# 1 \"/w/q/x.h\" 1\nint q;\n# 2 \"/w/src/angle.c\" 2\n",
            ),
            (
                "/w/src/there.c -I/w/q",
                "T# 1 \"/w/src/there.c\"\n# 1 \"/w/src/y.h\" 1\nint here;\n# 2 \"/w/src/there.c\" 2\n",
            ),
        ],
    },
    Case {
        name: "files and sources that are nowhere",
        nodes: &QUOTES,
        rows: &[
            (
                "src/quote.c",
                "D/w/src/quote.c:1: error: cannot find \"x.h\"",
            ),
            ("gone.c -Iq", "D/w/gone.c:0: error: cannot find source"),
            ("/gone.c -Iq", "D/gone.c:0: error: cannot find source"),
        ],
    },
    Case {
        name: "names from the root",
        nodes: &[
            ("/v", Dir, ""),
            ("/v/x.h", File, "int v;\n"),
            ("/w", Dir, ""),
            (
                "/w/a.c",
                File,
                "#include </v/x.h>\n#include_next \"/v/x.h\"\n",
            ),
        ],
        rows: &[(
            "a.c",
            "T# 1 \"/w/a.c\"\n# 1 \"/v/x.h\" 1\nint v;\n# 2 \"/w/a.c\" 2\n# 1 \"/v/x.h\" 1\nint v;\n# 3 \"/w/a.c\" 2\n",
        )],
    },
    Case {
        name: "trigraphs where they are asked for",
        nodes: &[
            ("/w", Dir, ""),
            ("/w/a.c", File, "??=warning x\ny??(1??)\n"),
        ],
        rows: &[
            ("a.c -trigraphs", "T# 1 \"/w/a.c\"\n\ny[1]\n"),
            ("a.c", "T# 1 \"/w/a.c\"\n? ? = warning x\ny ? ?(1 ? ?)\n"),
        ],
    },
];
