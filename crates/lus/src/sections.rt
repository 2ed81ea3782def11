//! The sections of docs/ERRORS.md, of which `docs/check --write` makes this file.

const E1: &str = "E1: characters

The source has a character that begins no token, a comment that nothing closes, or bytes that
aren't UTF-8.

    node n(a, b: bool) returns (y: bool);
    let
      y = a && b;
    tel
    -- error E1 line 3 column 9

Write what the language has: `and`, `or`, `not`, `=`, `<>`, `mod`. Names have letters of ASCII,
digits and `_`. Close each `/*` and `(*`. Save the file as UTF-8 without a byte order mark.
";

const E2: &str = "E2: grammar

The tokens spell no program. The place is the first token that can't follow those before it;
what is missing may be right before it, such as a `;` at the end of the line above.

    node n(x: int) returns (y: int);
    let
      y = -1 fby x;
    tel
    -- error E2 line 3 column 10

Mixes of operators that readers group differently need parentheses: `(-1) fby x`, `1 + (if c
then 1 else 0)`, `not (a = b)`, `(x when c) + 1` or `(x + 1) when c`. docs/LANGUAGE.md lists
them. Other causes are `,` in place of `;` between groups of inputs, an `if` without `else`, a
test that is no name (`when a < b`), and a word of another language (`match`, `return`).
";

const E3: &str = "E3: reserved words

The source has a word that full Lustre has and `lus` doesn't support: `real current assert
extern unsafe condact package model with include operator`.

    node n(x: real) returns (y: int);
    let
      y = 0;
    tel
    -- error E3 line 1 column 11

Take another name, or what docs/LANGUAGE.md gives in its place: whole numbers in hundredths for
`real`, a `merge` for `current`, an output for `assert`.
";

const E4: &str = "E4: names

A name isn't declared or is declared twice, or a variable hasn't its one equation. The place is
the name.

    node n(x: int) returns (y: int);
    var s: int;
    let
      y = x;
    tel
    -- error E4 line 2 column 5

Declare it, spell it right, or give each output and local one equation. Equations don't replace
one another as assignments do: `speed = 20; speed = if hot then 80 else speed;` is written
`speed = if hot then 80 else 20;`. What stands in a comment is no equation. An input has none.
Constructors and constants share one space of names for the whole source, so two enumerations
can't share a constructor.
";

const E5: &str = "E5: types

Types, counts of arguments, labels or fields disagree, or a `function` has memory or calls a
node.

    node n(x: int) returns (y: bool);
    let
      y = x + 1;
    tel
    -- error E5 line 3 column 7

Make both sides one type: `x + 1 > 0` for a truth value, `if c then 1 else 0` for a number. A
`merge` has each constructor of its enumeration once, a structure each field once. A call of a
node with several outputs stands alone on the right of `=`. For memory write `node` in place of
`function`.
";

const E6: &str = "E6: clocks

A stream is used at instants at which it isn't there, or is there when it shouldn't be.

    node n(c: bool; s: int when c; x: int) returns (y: int);
    let
      y = x + s;
    tel
    -- error E6 line 3 column 11

Bring both sides to one clock. Sample the faster by `when`: `(x when c) + s`, on a variable that
is declared `when c`. Or complete the slower by `merge`: `x + (merge c (true -> s) (false ->
0))`. In a branch of `merge`, sample each variable that is faster than the branch: `(false -> x
when not c)`. Literals and constants need nothing. A local on a clock says so where it is
declared.
";

const E7: &str = "E7: cycles

A variable needs itself at the same instant. The error ends with the variables of one cycle,
each of which needs the next.

    node n(x: int) returns (a, b: int);
    let
      a = b + x;
      b = a - 1;
    tel
    -- error E7 line 3 column 3 cycle a b

Put a `pre` or a `fby` where the value of the instant before is meant: `a = (0 -> pre b) + x`. A
first value stands on the left: `a = b fby 0` needs `b` at the first instant, and `a = 0 fby b`
doesn't. The `pre` has to be outside of calls: each output of a call needs all of the call's
arguments at once, whatever the called node does with them.
";

const E8: &str = "E8: nil

A value may be nil at its first instant where none may be: in an output, in an argument of a
call, under a second `pre`, in a branch of `merge`, or in what a clock or a `merge` tests.

    node n(x: int) returns (y: int);
    let
      y = pre x + 1;
    tel
    -- error E8 line 3 column 3

Give a first value: `(0 -> pre x) + 1`, or `1 -> pre x + 1`. For two instants back write `0 ->
pre (0 -> pre x)`. An `if` hides no nil, since it computes both sides. A branch of `merge` needs
a first value of its own, since its first instant may be any.
";

const E9: &str = "E9: recursion

A node calls itself, or a type has itself among its fields, directly or by others.

    node n(x: int) returns (y: int);
    let
      y = 0 -> n(x);
    tel
    -- error E9 line 3 column 12

Unroll it into nodes that each call the next. Where memory was meant, write `pre y`.
";

const E10: &str = "E10: limits

A limit of docs/LANGUAGE.md is passed: the size of the source, a number, the depth of an
expression, counts of declarations, sizes of types, the depth of calls, or the state size of a
node.

    const most = 9223372036854775808;
    -- error E10 line 1 column 14

`lus_explain` says which limit it is. Cut a deep expression by local variables, a large node or
type into several. A state that is too large mostly comes of nodes that call others twice, level
above level: call once, and pass the result on.
";

const E11: &str = "E11: out of memory

`lus` prints it as `error memory`, with status 4. A check takes some 55 KiB for each KiB of
source, a run up to 200. Give the process more memory.
";

const S1: &str = "S1: JSON

The scripts aren't JSON: a missing bracket or comma, a comment, a number that is too large for
any reader, half of a surrogate pair, bytes that aren't UTF-8, or lists and objects more than
127 deep.

    {\"instances\":[], \"callers\":[],}

Leave out the last comma.
";

const S2: &str = "S2: the form of scripts

The scripts are JSON, but not of the right form: a key is missing or unknown, a name is invalid,
or a value is one that no step can have.

    {\"on\":\"k\",\"step\":[2.5,\"Rde\"]}

Numbers are whole, from -9223372036854775808 to 9223372036854775807; constructors are spelled as
in the program; an absent input is `null`; `\"reset\"` has the value `true`. docs/JOURNALS.md has
the form. The instance itself refuses wrong types or numbers of inputs, in the journal.
";

const S3: &str = "S3: unknown names

An instance names a node that the program doesn't have, or a call names an instance that isn't
declared.

    {\"instances\":[{\"name\":\"roof\",\"node\":\"metre\"}],\"callers\":[]}

`lus_explain PROGRAM` lists the nodes.
";

const S4: &str = "S4: duplicate names

Two instances, or two callers, have one name.

    {\"instances\":[{\"name\":\"k\",\"node\":\"n\"},{\"name\":\"k\",\"node\":\"n\"}],\"callers\":[]}

Rename one. An instance and a caller may share a name.
";

const S5: &str = "S5: limits of scripts

The scripts have more than 1,048,576 bytes, 256 instances, 64 callers, or 10,000 calls of one
caller. Cut the scripts into several (docs/SERVICE.md), or pipe the calls into `lus_live`, which
has no such limits.

`lus_live` ends with it too where a node costs more than `--most-orders` or `--most-bytes`
allow, and says both numbers; `lus_explain --cost PROGRAM` has them for all nodes.
";

const S6: &str = "S6: out of memory

`lus` prints `error memory` for it, as for E11.
";

const WARNINGS: &str = "Warnings

`lus_explain PROGRAM [SCRIPTS]` tells what the author of an accepted program can hardly have
meant. The status is 0; with `--deny-warnings` it is 1. With `--no-warnings` nothing is told. A
name that begins with `_` needs no use.

unused_input, unused_local

The name of an input, or of a local variable, stands nowhere else in its node.

    node n(level, limit: int) returns (high: bool);
    var half: int;
    let
      half = level div 2;
      high = level > 10;
    tel

Use it, leave it out, or call it `_limit` where callers have to pass it. No local variable is
told whose equation defines another variable that is read, or an output.

unread_memory

Only its own equation reads a local variable.

    node n(x: int) returns (y: int);
    var count: int;
    let
      count = 0 -> pre count + 1;
      y = x;
    tel

Leave it out, or give an output from it.

unused_type, unused_constant, unused_node

The name stands nowhere else in the source, nor do the constructors of an enumeration. Nodes are
only told where there are SCRIPTS, in which no instance runs them.

    type gear = enum { Low, High };
    const most = 10;
    node n(x: int) returns (y: int);
    let
      y = x;
    tel

Leave it out.

unguarded_division

Both branches of an `if`, and both sides of `and`, `or` and `=>`, are computed at every instant.
So a test before a division doesn't prevent it.

    node n(a, b: int) returns (y: int);
    let
      y = if b <> 0 then a / b else 0;
    tel

Divide by what is never 0, `a / (if b <> 0 then b else 1)`, or compute the division on a clock:

    node n(a, b: int) returns (y: int);
    var some: bool;
        part: int when some;
    let
      some = b <> 0;
      part = (a when some) / (b when some);
      y = merge some (true -> part) (false -> 0 when not some);
    tel

constant_clock

The variable of a clock is a constant, so what is on that clock is always there, or never.

    node n(x: int) returns (y: int);
    var on: bool;
    let
      on = true;
      y = merge on (true -> x when on) (false -> 0 when not on);
    tel

Leave out the `when`, or test what changes.

constant_comparison

Both sides are constants, or written alike, so the comparison is always true, or always false.

    node n(x: int) returns (y: bool);
    let
      y = x <= x;
    tel

Compare with what was meant.

constant_fault

An operation never has a value, by the constants among its operands: a division by 0, or a
result out of the range of `int`. A call that computes it is `refused fault`.

    const most = 9223372036854775807;
    node n(x: int) returns (y, z: int);
    let
      y = x div 0;
      z = most + 1;
    tel

Write other numbers, or divide by what is never 0.

hidden_constant

A variable has the name of a constant, which its node can't use then.

    const limit = 10;
    node over(x, limit: int) returns (high: bool);
    let
      high = x > limit;
    tel
    
    node n(x: int) returns (high: bool);
    let
      high = x > limit;
    tel

Give one of them another name.

same_branches

Both branches of an `if` are written alike, so it is the same whatever its test says.

    node n(up: bool; x: int) returns (y: int);
    let
      y = if up then x + 1 else x + 1;
    tel

Write what was meant in one of them, or the branch alone.

exchanged_sides

A literal, a constant or a constructor stands on the right of a `fby`, or of a `->` with a `pre`
on its left, so the expression is that value at every instant but the first.

    node n(x: int) returns (y: int);
    let
      y = x fby 0;
    tel

The first value stands on the left: `y = 0 fby x`.
";

/// The section on this number of an error, or on warnings.
pub fn section_of(number: &str) -> Option<&'static str> {
    match number {
        "E1" => Some(E1),
        "E2" => Some(E2),
        "E3" => Some(E3),
        "E4" => Some(E4),
        "E5" => Some(E5),
        "E6" => Some(E6),
        "E7" => Some(E7),
        "E8" => Some(E8),
        "E9" => Some(E9),
        "E10" => Some(E10),
        "E11" => Some(E11),
        "S1" => Some(S1),
        "S2" => Some(S2),
        "S3" => Some(S3),
        "S4" => Some(S4),
        "S5" => Some(S5),
        "S6" => Some(S6),
        "warnings" => Some(WARNINGS),
        _ => None,
    }
}
