// Files that the words include in front of the source.
use crate::checked::Case;
use case_texts::Stands::{Dir, File};

pub const CASES: [Case<'static>; 2] = [
    Case {
        name: "files in front of the source",
        nodes: &[
            ("/w", Dir, ""),
            ("/w/a.c", File, "int a;\n"),
            ("/w/d.h", File, "int d;\n"),
            ("/w/e.h", File, "#include \"d.h\"\n#include \"f.h\"\nint e;"),
            ("/w/i", Dir, ""),
            ("/w/i/f.h", File, "int f;\n"),
        ],
        rows: &[
            (
                "a.c -include d.h",
                "T# 1 \"/w/a.c\"\n# 1 \"/w/d.h\" 1\nint d;\n# 1 \"/w/a.c\" 2\nint a;\n",
            ),
            (
                "-include d.h -included.h a.c",
                "T# 1 \"/w/a.c\"\n# 1 \"/w/d.h\" 1\nint d;\n# 1 \"/w/a.c\" 2\n# 1 \"/w/d.h\" 1\nint d;\n# 1 \"/w/a.c\" 2\nint a;\n",
            ),
            (
                "a.c -include f.h -I i",
                "T# 1 \"/w/a.c\"\n# 1 \"/w/i/f.h\" 1\nint f;\n# 1 \"/w/a.c\" 2\nint a;\n",
            ),
            (
                "a.c -iquote i -include e.h",
                "T# 1 \"/w/a.c\"\n# 1 \"/w/e.h\" 1\n# 1 \"/w/d.h\" 1\nint d;\n# 2 \"/w/e.h\" 2\n# 1 \"/w/i/f.h\" 1\nint f;\n\
             # 3 \"/w/e.h\" 2\nint e;\n# 1 \"/w/a.c\" 2\nint a;\n",
            ),
        ],
    },
    Case {
        name: "diagnostics of such files",
        nodes: &[
            ("/w", Dir, ""),
            ("/w/a.c", File, "#error a\n"),
            ("/w/bad.h", File, "int x;\n#foo\n"),
            ("/w/loop.h", File, "#include \"loop.h\"\n"),
            ("/w/open.h", File, "/*\n"),
        ],
        rows: &[
            ("a.c -include z.h", "D/w/a.c:0: error: cannot find \"z.h\""),
            (
                "a.c -include bad.h",
                "D/w/bad.h:2: error: unknown directive",
            ),
            (
                "a.c -include open.h",
                "D/w/open.h:1: error: unterminated comment",
            ),
            (
                "a.c -include loop.h",
                "D/w/loop.h:1: error: includes nested more than 200 deep",
            ),
            ("z.c -include z.h", "D/w/z.c:0: error: cannot find source"),
            ("a.c", "D/w/a.c:1: error: #error a"),
        ],
    },
];
