//! Texts of numbers, that `tools/fault-numbers --write` makes from docs/FAULTS.md and docs/LANGUAGE.md.

/// Each number with its faults and refusals, and with its FILE STATUS.
pub(crate) const NUMBERS: &[u8] = br#"
@ 0
FILE STATUS 00

Done.

@ 1
Fault 1 (the station): the device failed

A read, a write, a sync or a byte to show failed in this call.

What to do:
Find out why the device failed. A program that runs over it ends as `refused
80`.

@ 2
Fault 2 (arithmetic): a size error

The result has more than 38 digits, or more whole digits than its receiver, or
the divisor is zero.

What to do:
In a program: use a larger receiver, or ON SIZE ERROR.

FILE STATUS 02

READ: the next row has the same value of the key. WRITE: another row has the
same value of an alternate key with DUPLICATES. REWRITE: another row has the
new value of an alternate key with DUPLICATES that the statement changes.

What a program does:
Continues; READ NEXT gives the other rows.

@ 5
FILE STATUS 05

OPEN of an OPTIONAL file that was absent.

What a program does:
Continues: I-O and EXTEND made it, INPUT finds no rows.

@ 10
Fault 10 (sources: lines): this character is not ASCII

A byte outside hexadecimal 20 to 7e in columns 7 to 72 (in comments: in column
7).

What to do:
Write the text in ASCII. Put other characters into comments.

FILE STATUS 10

READ: no next row.

What a program does:
Ends its loop.

@ 11
Fault 11 (sources: lines): column 7 holds no indicator

Column 7 holds something other than a space, `*`, `/`, `-`, `D` or `d`. Often
the text began one column too early, or the source is in free format.

What to do:
Begin names of paragraphs and level 01 in column 8, and statements in column
12.

@ 12
Fault 12 (sources: lines): this continuation is wrong

A wrong continuation: it is blank, or has nothing before it to continue. A
continuation of a literal does not begin with the literal's mark in area B.

What to do:
Begin the continuation with the mark, in column 12 or later.

@ 13
Fault 13 (sources: lines): the source is too large

The source has more than 8,000,000 bytes.

What to do:
Split the program.

@ 14
Fault 14 (sources: lines): this literal is not closed on its line

A nonnumeric literal is open at the end of its line, and the next line with
text is no continuation. Reported at the opening mark.

What to do:
Close the literal, or continue it.

FILE STATUS 14

READ: the row's number has more digits than RELATIVE KEY.

What a program does:
Needs a larger item.

@ 15
Fault 15 (sources: tokens): this character begins no word, literal or separator

A character that begins no token here. Often a character from another language,
or a period without a space after it.

What to do:
Write a space after each period. Remove the character, or put it into a
nonnumeric literal.

@ 16
Fault 16 (sources: tokens): a word has 1 to 30 characters, the last no hyphen

A word of more than 30 characters, or with a hyphen at its end.

What to do:
Shorten the name, or remove the hyphen.

@ 17
Fault 17 (sources: tokens): a number has at most 18 digits

A numeric literal of more than 18 digits.

What to do:
Use fewer digits.

@ 18
Fault 18 (sources: tokens): a literal has 1 to 160 characters

A nonnumeric literal that is empty, is not closed, or has more than 160
characters.

What to do:
Show long texts by several literals. Write SPACE for an empty text.

@ 20
Fault 20 (sources: trees): this picture has no form

A picture that has no form. Reported at the picture, and only if nothing else
is wrong with the tree.

What to do:
See which symbols a picture may combine: `9`, `S` and `V` for numbers, `X` for
characters, `A` for letters, and the symbols of edited items.

@ 21
FILE STATUS 21

WRITE in sequence: the key is not greater than the last. REWRITE in sequence:
the prime key was changed.

What a program does:
Sorts its input; uses DELETE and WRITE.

@ 22
FILE STATUS 22

A row with that prime key, number, or unique alternate value exists.

What a program does:
Uses REWRITE, or another key.

@ 23
FILE STATUS 23

READ, REWRITE, DELETE, START: no row with that key or number.

What a program does:
Reports it to the user.

@ 24
FILE STATUS 24

A relative number below 1, above 999,999,999, or longer than RELATIVE KEY.

What a program does:
Tests the number before, or needs a larger item.

@ 30
Fault 30 (sources: trees): the text does not follow the grammar here

The text stops following the grammar at this token. A clause that its entry
already has is refused at its first word.

What to do:
Look for a missing period or a misspelt word, here or just before.

@ 31
Fault 31 (sources: trees): statements or parentheses nest too deep

Statements, or a statement and the parentheses of its expression, nest deeper
than 64.

What to do:
Compute an inner part beforehand, or PERFORM a paragraph.

@ 35
FILE STATUS 35

OPEN: no such file.

What a program does:
OPEN OUTPUT first, or OPTIONAL.

@ 39
FILE STATUS 39

OPEN: the file has another organization, record length or key.

What a program does:
Describes it as it was made.

@ 40
Fault 40 (sources: statements): this name is not declared

A name that names no item; in a condition, no condition name; after PERFORM or
THRU, no paragraph or section. Reported at the name.

What to do:
Declare it, or look for a misspelt word.

@ 41
Fault 41 (sources: statements): several items have this name

A name that names several items.

What to do:
Name its group: `X OF A`.

FILE STATUS 41

OPEN of an open file, also by another SELECT of its name (own choice).

What a program does:
Opens each file once.

@ 42
Fault 42 (sources: files): this name is given twice

A file's name in a second SELECT or FD, at that name.

What to do:
Give each file and each procedure a name of its own.

Fault 42 (sources: statements): this name is given twice

The name of two paragraphs or sections, also in two sections, at the second
one.

What to do:
Give each file and each procedure a name of its own.

FILE STATUS 42

CLOSE of a file that is not open.

What a program does:
Closes each open file once.

@ 43
Fault 43 (sources: entries): this level number does not fit

A level number that is none, or does not fit. The items of a group have one
level, from 02 to 49. Levels 01 and 77 are outermost. A 77 holds no items and
is no record of an FD. A condition name before all items is reported at its
name.

What to do:
Give all items of a group one level from 02 to 49, and records of an FD level
01.

FILE STATUS 43

REWRITE, DELETE in sequence without a successful READ just before.

What a program does:
READ the row first.

@ 44
Fault 44 (sources: entries): a clause does not fit this item

A clause that does not fit its item. OCCURS at 01 or 77, of 0, or in an eighth
dimension. JUSTIFIED, BLANK WHEN ZERO, SIGN or USAGE of another kind of item. A
USAGE that differs from the USAGE of the group around it.

What to do:
Remove the clause. To repeat a whole record, put OCCURS at an item below level
01.

@ 45
Fault 45 (sources: entries): an item needs a picture, and a group has none

An elementary item has no picture, or a group has one.

What to do:
Write PIC at each item that has no items below it, and nowhere else.

@ 46
Fault 46 (sources: entries): REDEFINES does not fit this item

REDEFINES, at its name. It must name the last item before it in its group that
redefines nothing. That item has the same level, no OCCURS, and enough bytes.

What to do:
Put the entry directly after the item that it redefines.

FILE STATUS 46

READ in sequence after a READ without a next row, or after a START that found
no row.

What a program does:
START, or OPEN again.

@ 47
Fault 47 (sources: entries): VALUE does not fit this item

VALUE, at the literal. The item cannot hold the literal unchanged, or no VALUE
is allowed there: under REDEFINES, or in a group with VALUE.

What to do:
Write a number for a numeric item, and a literal in quotation marks for others,
no longer than the item. A minus needs S in the picture. MOVE the value instead
where VALUE is not allowed.

FILE STATUS 47

READ, START: the file is not open INPUT or I-O.

What a program does:
OPEN INPUT or OPEN I-O first.

@ 48
Fault 48 (sources: entries): this item is too large

An item of more than 65,535 bytes. Or working storage of more than 1,000,000
bytes, at the 01 or 77 that exceeds the limit.

What to do:
Divide the data into several items of level 01, or keep them in a file.

FILE STATUS 48

WRITE: the file is not open in a mode that permits it.

What a program does:
OPEN OUTPUT first; EXTEND for a sequential file, I-O for access by key.

@ 49
Fault 49 (sources: statements): this MOVE is not permitted

A MOVE that the standard does not permit, or of more than 18 characters to a
number, at the receiver. `MOVE N TO A` where A is alphabetic; `ACCEPT A FROM
DATE`.

What to do:
MOVE the number to an integer or an edited item first. Declare the receiver as
alphanumeric, or as a number.

FILE STATUS 49

REWRITE, DELETE: the file is not open I-O.

What a program does:
OPEN I-O first.

@ 50
Fault 50 (sources: statements): the number of subscripts is wrong

The number of subscripts differs from the number of dimensions.

What to do:
Write one subscript for each OCCURS of the item and of the groups around it: `X
(I, J)`. An item without OCCURS has none. A part of an item has a colon: `X
(1:3)`.

@ 51
Fault 51 (sources: statements): a number is needed here

A subscript that is no integer. An operand of arithmetic that is no number, or
a receiver that takes none. The sign of an operand that is no number. FROM, BY
or the item of VARYING. An item before TIMES that has decimals or holds no
number. `ADD W TO N` where W is alphanumeric; `ADD 1 TO E` where E is edited;
`IF W IS POSITIVE`.

What to do:
MOVE the characters to a number first. Use an integer item as a subscript and
before TIMES, and an edited receiver after GIVING.

@ 52
Fault 52 (sources: statements): these two sides cannot be compared

Two sides that cannot be compared, at the left one, or at the object of a WHEN.
They are two literals, or characters and a number that has decimals or is not
in DISPLAY usage. `IF "A" = "B"`; `IF W = K` where K is COMP and W
alphanumeric.

What to do:
Move the number to a DISPLAY integer first.

@ 53
Fault 53 (sources: statements): this WHEN does not fit its EVALUATE

In an EVALUATE, a WHEN with more or fewer objects than there are subjects, at
WHEN. Or an object that does not fit its subject, at the object: a value for a
condition or TRUE, or a condition for a value. A name alone is a value if no
condition has it. `EVALUATE N WHEN N = 1`

What to do:
Write `EVALUATE TRUE WHEN N = 1`, or `EVALUATE N WHEN 1`. Write ANY for an
object that does not matter.

@ 54
Fault 54 (sources: statements): this PERFORM repeats its own paragraph

The PERFORM graph has a cycle. Reported at the name after a PERFORM of the
cycle. `A. PERFORM B. B. PERFORM A.`

What to do:
Repeat by UNTIL, TIMES or VARYING, and remove the PERFORM that closes the
cycle.

@ 55
Fault 55 (sources: entries): the range ends before it begins

A range of values whose first value is the greater, at its first literal.

What to do:
Exchange the two ends of the range.

Fault 55 (sources: statements): the range ends before it begins

THRU whose last procedure is before its first, at the name after THRU. `PERFORM
C THRU B` where B is first in the text.

What to do:
Exchange the two ends of the range.

@ 56
Fault 56 (sources: statements): there is no paragraph and no sentence

Sections without any paragraph or sentence, at the first section's name.

What to do:
Write a paragraph.

@ 57
Fault 57 (sources: files): this file has no SELECT or no FD

A SELECT without FD, or an FD without SELECT, at its name.

What to do:
Write the other one. Compare the spelling of the two names.

@ 58
Fault 58 (sources: files): this does not fit the keys of the file

An item that cannot be a key, at its name: it is outside the record, has
subscripts, is signed, is not in DISPLAY usage, or begins at the same byte as
another key. A key clause of another organization. At the file's name: an
indexed file without RECORD KEY, or a sequential file with random or dynamic
access.

What to do:
Name an item of the file's record, alphanumeric or unsigned. Write ORGANIZATION
IS INDEXED for a file with RECORD KEY, and ACCESS SEQUENTIAL for a sequential
file.

@ 59
Fault 59 (sources: files): FILE STATUS needs an item of two characters

FILE STATUS, at its name. It must be an alphanumeric item of two characters in
working storage, without subscripts.

What to do:
Declare `01 STATE PIC XX.` in WORKING-STORAGE SECTION.

@ 60
Fault 60 (sources: files): RELATIVE KEY is missing or does not fit

RELATIVE KEY, at its name. It must be an unsigned integer outside the record,
without subscripts. It is required, at the file's name, if access is random or
dynamic or if a START names the file.

What to do:
Declare `01 ROW-NUMBER PIC 9(6).` in WORKING-STORAGE SECTION, and write
RELATIVE KEY IS ROW-NUMBER.

@ 61
Fault 61 (sources: files): the file never permits this statement

A statement that the file's organization or access never permits: DELETE or
START of a sequential file, START with random access, EXTEND of a file that is
not sequential.

What to do:
Use an indexed or relative file for DELETE and START, and sequential or dynamic
access for START. OPEN EXTEND is for sequential files: use OPEN I-O and dynamic
access for others.

@ 62
Fault 62 (sources: files): this phrase does not fit the statement

A phrase of READ that does not fit: AT END of a READ by key, INVALID KEY or KEY
of a READ in sequence, NEXT with random access. KEY of an item that no RECORD
KEY and no ALTERNATE RECORD KEY of the file names. INVALID KEY of a statement
on a sequential file.

What to do:
Use AT END for a READ in sequence, and INVALID KEY for a READ by key. A READ by
key needs random or dynamic access in SELECT. Under dynamic access a READ in
sequence has NEXT.

@ 63
Fault 63 (sources: files): START needs a key of the file and a relation

START. Its key is no key of the file and begins none. Or its relation is not
one of equal, greater, not less, and greater or equal, as they are written:
`KEY NOT <= K`.

What to do:
Name a key of the file, with EQUAL, GREATER or NOT LESS: `KEY > K`.

@ 64
Fault 64 (sources: statements): INSPECT cannot use this operand

In an INSPECT, at its place: a counter that is not numeric. An item or a text
that is a number with S or not in DISPLAY usage. A text that is a numeric
literal. A text after BY or TO whose size differs from the text's before it, or
where one of the two sizes is not known before the run. More than one character
after CHARACTERS BY. `INSPECT T TALLYING E FOR ALL "A"` where E is edited;
`INSPECT T REPLACING ALL 0 BY " "`; `INSPECT T REPLACING ALL "AB" BY "C"`;
`INSPECT T REPLACING ALL S (1:I) BY "C"`

What to do:
Use a counter `PIC 99`. Write a literal in quotation marks, or ZERO. MOVE the
number to an item without S in DISPLAY usage first. Write the length of the
part as a literal. Fill the shorter text with spaces, or write a figurative
constant, which takes the size: `REPLACING ALL "0" BY SPACE`.

@ 65
Fault 65 (sources: statements): STRING cannot use this operand

In a STRING: a sender or a delimiter that is a numeric literal, or a number
with S, with decimals or not in DISPLAY usage. A receiver that is no group,
letters or characters, or is JUSTIFIED. A pointer that is no integer, or cannot
hold the receiver's size plus one. `STRING 1 DELIMITED BY SIZE INTO W`

What to do:
Write the literal in quotation marks. MOVE the number to an edited item first.
Use a pointer with more digits.

@ 66
Fault 66 (sources: files): a name on the volume has 1 to 30 characters

A file's name after ASSIGN with no characters or more than 30.

What to do:
Shorten the name after ASSIGN.

@ 67
Fault 67 (sources: statements): ALL with a literal is not permitted here

DISPLAY or STRING of ALL with a literal.

What to do:
Write the literal as long as you need it.

@ 68
Fault 68 (sources: statements): SET needs a condition name

SET of an item in place of a condition name. `SET N TO TRUE`

What to do:
MOVE the value, or give the item a condition name at level 88.

@ 69
Fault 69 (sources: entries): a limit is exceeded

More than 5,000 entries, or OCCURS of more than 65,535 (a condition name is
reported at its name). More than 50,000 statements, at the 50,001st in the
order of the text; a nested statement counts too. More than 15 files, at each
further name. A record of more than 16,000 bytes, at the name after FD. A key
of more than 100 bytes, or more than 7 alternate keys, at the key.

What to do:
Divide the program, the record or the key.

@ 70
Refusal 70 (images): this is no image

The bytes do not begin with a mark of an image.

What to do:
Compile the source again.

@ 71
Refusal 71 (images): the image is too short or too long

The bytes end within the image, or more bytes follow it.

What to do:
Compile again.

@ 72
Refusal 72 (images): a value of the image is out of its range

A field of the image has a value that it cannot have, such as an unknown
instruction.

What to do:
Compile again.

@ 73
Refusal 73 (images): an index of the image is out of its table

An index or an address is outside its table: an item, a number, a text, an
inspection, a file, a counter, the start of a code paragraph.

What to do:
Compile again.

@ 74
Refusal 74 (images): the code of the image has a wrong shape

The code has a shape that no program has. A backward jump to no earlier `tick`,
or a forward jump that does not end after a `join`. A last instruction other
than `stop`. An instruction without its operands on the stacks. A file that
does not suit a statement.

What to do:
Compile again.

@ 75
Refusal 75 (sources: statements): this item has no parts

A part of an item that is neither a group nor in DISPLAY usage, at the item's
name. A part in SELECT or SET, of a condition name, as a KEY of READ or START,
or as the record of WRITE or REWRITE. `DISPLAY B (1:2)` where B is COMP

What to do:
MOVE the number to a DISPLAY item first. A KEY, a record and a condition have
no parts: describe the part as an item of its own.

@ 80
Refusal 80 (runs): the device failed

A sector could not be read, written or synced, bytes could not be shown, or a
console line could not be read.

What to do:
Check the disk, the standard output and the console of the host. The next run
shows which statements reached the disk.

@ 81
Refusal 81 (runs): the volume is full

The volume has no room for the change of a file statement, or for `migrate`. It
wrote nothing, and earlier statements stay.

What to do:
Make a larger volume by `cobol copy`, and run the programs again that fill it.

Refusal 81 (pages): the volume is full

A change needs more sectors than are free.

What to do:
Make a larger volume.

@ 82
Refusal 82 (runs): the volume is damaged

Something other than this product changed the volume's bytes. If its roots or
map sectors are damaged, it could not be opened: nothing was shown and nothing
was written. If they are sound and a file statement met damage, the statements
before it are done and stay.

What to do:
Restore the volume from a copy.

Refusal 82 (pages): the bytes are no volume

The roots, the map or the pages are not as a commit leaves them.

What to do:
Restore it from a copy. This product leaves no such bytes, whatever stop there
was.

@ 83
Refusal 83 (runs): memory ran out

The host gave the process no more memory.

What to do:
Give the process more memory, or end other processes.

@ 84
Refusal 84 (pages): the volume was given up

An earlier commit failed, and the store was given up.

What to do:
Open it again.

@ 85
Refusal 85 (runs): a host file cannot be used

A host file cannot be read or written, is no regular file where a volume must
be one, or is locked by another command.

What to do:
Check that the file exists and is readable, and that no other command uses it.

@ 86
Refusal 86 (runs): the volume is a volume of halves

`migrate` was called for a volume of halves. Nothing was written.

What to do:
Make a volume of trees of it by `cobol copy`, or leave it: every other command
works on it.

Refusal 86 (pages): the volume has the other layout

Each store reports it exactly for volumes of the other store. A run opens both
layouts, so it never ends so.

What to do:
Open it by the other store.

@ 87
Refusal 87 (runs): the volume's mark is too early for this file

An OPEN would make a file with records of more than 1,000 bytes on a volume
with the mark `COBVOL01` or of halves. It wrote nothing, and earlier statements
stay.

What to do:
Give a volume of trees the mark `COBVOL02` by `cobol migrate`. Make one of a
volume of halves by `cobol copy`.

@ 90
Fault 90 (runs): these bytes are no number

Bytes that are no number where one is needed: spaces in a numeric item,
characters under a REDEFINES.

What to do:
Move a number there first, or give it a VALUE. Test it by IF NUMERIC. Fill
typed spaces by `INSPECT G REPLACING ALL SPACE BY ZERO`, where G is the item's
group.

@ 91
Fault 91 (runs): a subscript is out of its range

A subscript out of its range: below 1, or above the number of OCCURS.

What to do:
Test the subscript before its use, or end the loop earlier: `UNTIL I > 12`.

@ 92
Fault 92 (runs): a file statement failed

A file statement ended with a status from 10 on, no phrase of it matches, and
the file has no FILE STATUS.

What to do:
Write AT END or INVALID KEY, or FILE STATUS and test it. Chapter 7 of the
manual explains each status.

@ 93
Fault 93 (runs): the item does not have this part

A part of an item that the item does not have: its first place or its length is
below 1, or its end is after the item's end.

What to do:
Test both numbers before their use.
"#;
