//! Causes of faults that the text around the place shows.

/// Each cause with what to do. `check` writes the word at the place before the first line.
pub(crate) const CAUSES: &[u8] = br#"
@ abbreviated condition
each condition is written in full
Write the item and the relation again: `A = 1 OR A = 2`.

@ after the end
the period before it has ended the statement
Remove the period, or this word. A period ends all open statements.

@ colon
a colon follows the first place of a part
A part of an item is NAME (2:3), or NAME (2:) up to its end, with spaces around
the colon or without. SQL with host variables is not in this language.

@ column 72
the line is cut after column 72
Only columns 8 to 72 count. Go on in the next line.

@ column 72 in a literal
the literal goes past column 72
Only columns 8 to 72 count. Write two literals, or continue this one: an
indicator - in column 7 of the next line, and its mark again in column 12 or
later.

@ comment
a comment has its asterisk in column 7
The text of a program begins in column 8.

@ condition needed
an item alone is no condition
Write the item and the relation again: `A = 1 OR A = 2`. A condition name has
level 88, below the item that it tests.

@ end of nothing
no statement is open that this word could end
Remove it, or look for a word END- that is too many before it. A PERFORM of a
paragraph has no END-PERFORM.

@ expression
expressions are allowed in COMPUTE and conditions only
Write COMPUTE item = expression.

@ file needed
no file has this name
The statement takes the name of the file, as SELECT and FD give it, and not the
name of a record.

@ free format
the text begins before column 8
The format is fixed: columns 1 to 6 are for numbers, column 7 is for * and -,
names of paragraphs begin in column 8 and statements in column 12.

@ item needed
this is a condition name, and no item
Test it alone, as in IF name. SET name TO TRUE stores its value. MOVE, DISPLAY
and relations take the item above it.

@ misspelt
this is no word of the language
Look for a misspelt word.

@ no identification
the program begins with IDENTIFICATION DIVISION
Write IDENTIFICATION DIVISION and a period, and then PROGRAM-ID with a name.

@ no program id
PROGRAM-ID is missing
Write PROGRAM-ID, a period and a name after IDENTIFICATION DIVISION.

@ no statement
a statement is missing before this word
Write CONTINUE if there is nothing to do.

@ no procedure division
the program has no PROCEDURE DIVISION
Write PROCEDURE DIVISION and a statement, such as STOP RUN.

@ not ended
a PERFORM is not ended before this period
Write END-PERFORM before the period, and remove periods inside the PERFORM. A
PERFORM of a paragraph has its name first: PERFORM name UNTIL condition.

@ other mark
the literal does not end with the mark that opened it
Write the same mark at both ends.

@ paragraph needed
no paragraph and no section has this name
Write the paragraph, or look for a misspelt name.

@ period after a name
a period is missing after the name of the paragraph
Write a period and a space after the name.

@ period before a line
a period is missing before this line
End the line before it by a period.

@ record needed
no record has this name
WRITE and REWRITE take the name of a record, level 01 after the FD, and not the
name of the file.

@ reserved
this word is reserved and cannot be a name
Choose another name. Chapter 2 of the manual lists the reserved words.

@ sign
this is a number with a sign
Write a space after the sign too: `X (I - 1)`.

@ subscript
this is no subscript, and no part of an item
A subscript is X (5) or X (I - 1), and a part X (2:3). COMPUTE any other number
in an item first.

@ typographic mark
a quotation mark is written as " or '
Replace the typographic mark.

@ verb needed
a statement begins with a verb
Look for a misspelt verb, or for a period too many before this word. COMPUTE
and MOVE store a value, and DISPLAY shows one.

@ paragraph of nothing
this is a paragraph without statements
If it is to be a statement, look for a misspelt verb. If it is a paragraph,
begin its name in column 8 to 11.
"#;
