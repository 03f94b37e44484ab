// A source that includes a header.
use crate::example::{Placed, WORK};

pub const FILES: [Placed<'static>; 3] = [
    WORK,
    Placed::File {
        path: "/w/a.c",
        body: "#include \"b.h\"\nint y;\n",
    },
    Placed::File {
        path: "/w/b.h",
        body: "int x;\n",
    },
];

pub const TEXT: &str = "# 1 \"/w/a.c\"\n# 1 \"/w/b.h\" 1\nint x;\n# 2 \"/w/a.c\" 2\nint y;\n";

pub const SENT: &str = "DIST00000103CDIR00000002/wARGC00000001ARGV00000003a.cNFIL00000003\
                        NAME00000002/wMDIR00000000\
                        NAME00000006/w/a.cFILE00000016#include \"b.h\"\nint y;\n\
                        NAME00000006/w/b.hFILE00000007int x;\n";

pub const RECEIVED: &str = "DONE00000103STAT00000000SERR00000000DOTI00000039\
                            # 1 \"/w/a.c\"\n# 1 \"/w/b.h\" 1\nint x;\n# 2 \"/w/a.c\" 2\nint y;\n";
