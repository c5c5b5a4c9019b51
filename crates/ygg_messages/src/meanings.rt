//! What the numbers of refusals mean.

/// What each number of a refusal means, in order. `ygg --help`, the documents and this table have the same numbers, which a test compares.
const MEANINGS: [(u8, &str); 32] = [
    (1, "a byte that isn't ASCII"),
    (2, "no token begins so"),
    (3, "no valid file goes on with this"),
    (4, "a name that means nothing here"),
    (5, "this name is taken already"),
    (6, "widths differ, or a number is too great for its width"),
    (
        7,
        "types differ, or there are too many arguments or too few",
    ),
    (8, "a number out of its range"),
    (
        9,
        "too long with calls and loops written out: at most 65536 steps",
    ),
    (10, "more than 8 choices"),
    (11, "the file is too large"),
    (21, "this is no certificate: its first line is another"),
    (22, "this certificate isn't one of this file"),
    (24, "the certificate ends too early"),
    (31, "no such line of a schedule may stand here"),
    (
        32,
        "this name isn't the one that stands here in a schedule of this file",
    ),
    (33, "this value hasn't the shape of its name in the file"),
    (34, "the schedule ends too early"),
    (41, "no such line of a script may stand here"),
    (
        42,
        "the topmost layer has no such operation, or the file no such background step",
    ),
    (43, "not one fitting value for each argument"),
    (
        44,
        "what the line above does makes fewer disk calls than that",
    ),
    (51, "the image isn't formatted to its end"),
    (52, "the image is of a disk of another size"),
    (53, "the image has a bit set that no row has"),
    (61, "no header of clauses: p cnf VARIABLES CLAUSES"),
    (62, "no such number may stand here"),
    (63, "more clauses than the header says, or fewer"),
    (71, "no such command"),
    (72, "a number is wanted here"),
    (73, "no such file"),
    (74, "the file has no obligation of this name"),
];

/// What the number of a refusal means.
pub fn meaning(number: u8) -> &'static str {
    for (known, text) in &MEANINGS {
        if *known == number {
            return *text;
        }
    }
    "ygg --help explains the numbers"
}
