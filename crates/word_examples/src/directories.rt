// Options with an operand (GCC's manual, "Options for Directory Search" and "Options Controlling the Preprocessor").
use crate::notation::check_rows;

// Words, and the job with their operands.
const OPERANDS: &[(&str, &str)] = &[
    // Operands in the same word and the next.
    ("-Iinc a.c", "a.c to a.i, bracket inc"),
    ("-I inc a.c", "a.c to a.i, bracket inc"),
    ("-iquoteinc a.c", "a.c to a.i, quote inc"),
    ("-iquote inc a.c", "a.c to a.i, quote inc"),
    ("-isysteminc a.c", "a.c to a.i, bracket inc"),
    ("-isystem inc a.c", "a.c to a.i, bracket inc"),
    ("-idirafterinc a.c", "a.c to a.i, bracket inc"),
    ("-idirafter inc a.c", "a.c to a.i, bracket inc"),
    ("-includeinc a.c", "a.c to a.i, forced inc"),
    ("-include inc a.c", "a.c to a.i, forced inc"),
    ("-ob.i a.c", "a.c to b.i"),
    ("-o b.i a.c", "a.c to b.i"),
    // Operands that look like options.
    ("-I -x a.c", "a.c to a.i, bracket -x"),
    ("-I-x a.c", "a.c to a.i, bracket -x"),
    ("-I -I a.c", "a.c to a.i, bracket -I"),
    ("-iquote -trigraphs a.c", "a.c to a.i, quote -trigraphs"),
    ("-include b.c a.c", "a.c to a.i, forced b.c"),
    ("-o -c a.c", "a.c to -c"),
    // Operands that are missing.
    ("a.c -I", "NoOperand"),
    ("a.c -iquote", "NoOperand"),
    ("a.c -isystem", "NoOperand"),
    ("a.c -idirafter", "NoOperand"),
    ("a.c -include", "NoOperand"),
    ("a.c -o", "NoOperand"),
    ("-I '' a.c", "NoOperand"),
    ("-iquote '' a.c", "NoOperand"),
    ("-isystem '' a.c", "NoOperand"),
    ("-idirafter '' a.c", "NoOperand"),
    ("-include '' a.c", "NoOperand"),
    ("-o '' a.c", "NoOperand"),
];

#[test]
fn reads_operands(rt: HostRuntime) {
    check_rows(&rt, rt.alloc(), OPERANDS);
}

// Words, and the job with their directories.
const DIRECTORIES: &[(&str, &str)] = &[
    // Directories in the order of their options.
    (
        "-Ii -isystem s -idirafter d a.c",
        "a.c to a.i, bracket i s d",
    ),
    (
        "-idirafter d -isystem s -Ii a.c",
        "a.c to a.i, bracket i s d",
    ),
    (
        "a.c -isystems -Ii -idirafterd -isystemt -Ij",
        "a.c to a.i, bracket i j s t d",
    ),
    // The first place of a directory is kept.
    ("-Ia -I b -Ia a.c", "a.c to a.i, bracket a b"),
    ("-isystem a -Ia a.c", "a.c to a.i, bracket a"),
    ("-idirafter a -isystem a a.c", "a.c to a.i, bracket a"),
    (
        "-idirafterx -isystemy -isystemx -Iz -Iy a.c",
        "a.c to a.i, bracket z y x",
    ),
    ("-Ia -Ia/ -I./a a.c", "a.c to a.i, bracket a a/ ./a"),
    // Quoted directories stand apart.
    ("-iquote q -Iq a.c", "a.c to a.i, quote q, bracket q"),
    (
        "-iquoteq -iquoter -iquoteq -Ii a.c",
        "a.c to a.i, quote q r, bracket i",
    ),
    // Each file that is included first is kept.
    (
        "-include x -includey -include x a.c",
        "a.c to a.i, forced x y x",
    ),
];

#[test]
fn orders_directories_and_files(rt: HostRuntime) {
    check_rows(&rt, rt.alloc(), DIRECTORIES);
}
