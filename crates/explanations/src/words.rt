//! Words of other COBOLs, and pairs of words and signs, that this language doesn't have.

/// Verbs and other words that no other use explains: the part is right wherever the word is, also directly before the place.
pub(crate) const VERBS: &[u8] = br#"
@ ALLOCATE
ALLOCATE is not in this language
Declare the data in WORKING-STORAGE SECTION, with the greatest size.

@ ALTER
ALTER is not in this language
Choose by IF or EVALUATE.

@ CALL
CALL is not in this language
One source is one program. Make the called program a paragraph of this one, and
PERFORM it.

@ CANCEL
CANCEL is not in this language
One source is one program.

@ CHAIN
CHAIN is not in this language
One source is one program. Run the programs one after the other.

@ COMMIT
COMMIT is not in this language
Each file statement is durable when it ends.

@ COPY
COPY is not in this language
Write the text of the copied member into the source.

@ CORR
CORRESPONDING is not in this language
Write a statement for each item.

@ CORRESPONDING
CORRESPONDING is not in this language
Write a statement for each item.

@ DISABLE
DISABLE is not in this language
There is no Communication module.

@ ENABLE
ENABLE is not in this language
There is no Communication module.

@ END-ACCEPT
END-ACCEPT is not in this language
Remove it: ACCEPT has no phrases.

@ END-CALL
CALL and END-CALL are not in this language
One source is one program. Make the called program a paragraph of this one, and
PERFORM it.

@ END-DISPLAY
END-DISPLAY is not in this language
Remove it: DISPLAY has no phrases.

@ END-EXEC
EXEC and END-EXEC are not in this language
There is no SQL. Keep the rows in an indexed file.

@ END-RETURN
SORT and RETURN are not in this language
Write the rows to an indexed file whose key is the order, and read it with READ
NEXT.

@ END-SEARCH
SEARCH is not in this language
Repeat by PERFORM VARYING until the element is found.

@ END-UNSTRING
UNSTRING is not in this language
Describe the item again by REDEFINES as a group of fields, or go through its
characters as a table of PIC X.

@ ENTER
ENTER is not in this language
One source is one program, in one language.

@ ENTRY
ENTRY is not in this language
One source is one program, and it begins at its first statement.

@ EXAMINE
EXAMINE is not in this language
Use INSPECT TALLYING or INSPECT REPLACING.

@ EXEC
EXEC is not in this language
There is no SQL. Keep the rows in an indexed file.

@ EXHIBIT
EXHIBIT is not in this language
Use DISPLAY.

@ FREE
FREE is not in this language
Declare the data in WORKING-STORAGE SECTION.

@ FUNCTION
FUNCTION is not in this language
There are no intrinsic functions. ACCEPT item FROM DATE gives the day, and
COMPUTE calculates.

@ GENERATE
GENERATE is not in this language
There is no Report Writer. Show lines by DISPLAY, or WRITE them to a file.

@ GO
GO TO is not in this language
Repeat by PERFORM with UNTIL, choose by IF or EVALUATE, and end the run by STOP
RUN.

@ GOBACK
GOBACK is not in this language
Write STOP RUN.

@ GOTO
GO TO is not in this language
Repeat by PERFORM with UNTIL, choose by IF or EVALUATE, and end the run by STOP
RUN.

@ INITIATE
INITIATE is not in this language
There is no Report Writer. Show lines by DISPLAY, or WRITE them to a file.

@ INVOKE
INVOKE is not in this language
There are no objects. PERFORM a paragraph.

@ JSON
JSON statements are not in this language
Build the text by STRING.

@ MERGE
MERGE is not in this language
Read both files in the order of their keys, and WRITE the lesser row.

@ PURGE
PURGE is not in this language
There is no Communication module.

@ RAISE
RAISE is not in this language
Test the condition by IF, and PERFORM a paragraph.

@ RECEIVE
RECEIVE is not in this language
ACCEPT takes a line of the console.

@ RELEASE
SORT and RELEASE are not in this language
Write the rows to an indexed file whose key is the order.

@ REPLACE
REPLACE is not in this language
Write the text as it has to be compiled.

@ RESUME
RESUME is not in this language
Test the FILE STATUS by IF, and PERFORM a paragraph.

@ RETURN
SORT and RETURN are not in this language
Write the rows to an indexed file whose key is the order, and read it with READ
NEXT.

@ ROLLBACK
ROLLBACK is not in this language
Each file statement is durable when it ends.

@ SEARCH
SEARCH is not in this language
Repeat by PERFORM VARYING until the element is found.

@ SEND
SEND is not in this language
DISPLAY shows text.

@ SORT
SORT is not in this language
Write the rows to an indexed file whose key is the order, and read it with READ
NEXT.

@ SUPPRESS
SUPPRESS is not in this language
There is no Report Writer.

@ TERMINATE
TERMINATE is not in this language
There is no Report Writer.

@ TRANSFORM
TRANSFORM is not in this language
Use INSPECT REPLACING.

@ UNLOCK
UNLOCK is not in this language
One run at a time uses a volume, so no row is ever locked.

@ UNSTRING
UNSTRING is not in this language
Describe the item again by REDEFINES as a group of fields, or go through its
characters as a table of PIC X.

@ USE
USE and DECLARATIVES are not in this language
Write AT END or INVALID KEY, or test the FILE STATUS after each file statement.

@ XML
XML statements are not in this language
Build the text by STRING.
"#;

/// Other words, and pairs of words or signs: the part is right if reading stopped at it.
pub(crate) const WORDS: &[u8] = br#"
@ *>
comments at the end of a line are not in this language
Give the comment a line of its own, with an asterisk in column 7.

@ **
there is no exponentiation
Multiply the number by itself.

@ ==
the relation is written = with one sign
Write `IF A = B`.

@ <>
the relation is written NOT =
Write `IF A NOT = B`.

@ =>
the relation is written >=
Write `IF A >= B`.

@ =<
the relation is written <=
Write `IF A <= B`.

@ ACCEPT FROM
ACCEPT takes FROM DATE only
The console has no time and no name. The day is ACCEPT item FROM DATE, and
another value is a line of the console: ACCEPT item.

@ ACCEPT AT
ACCEPT takes a line of the console
There is no screen. Write ACCEPT item.

@ ADDRESS
ADDRESS is not in this language
There are no pointers to data.

@ ASCENDING
keys of a table are not in this language
Remove the clause. Repeat by PERFORM VARYING until the element is found.

@ BASED
BASED is not in this language
There are no pointers to data.

@ CLASS
CLASS is not in this language
Test the characters by ALPHABETIC or NUMERIC, or by a condition name.

@ COMMUNICATION
COMMUNICATION SECTION is not in this language
ACCEPT takes a line of the console, and DISPLAY shows one.

@ COMP-1
floating point is not in this language
Use COMP-3 or COMP with as many decimals as are needed: PIC S9(9)V9(9) COMP-3.

@ COMP-2
floating point is not in this language
Use COMP-3 or COMP with as many decimals as are needed: PIC S9(9)V9(9) COMP-3.

@ COMP-4
the usages are DISPLAY, COMP and COMP-3
Write COMP.

@ COMP-5
the usages are DISPLAY, COMP and COMP-3
Write COMP.

@ COMP-6
the usages are DISPLAY, COMP and COMP-3
Write COMP-3.

@ COMP-X
the usages are DISPLAY, COMP and COMP-3
Write COMP.

@ COMPUTATIONAL-1
floating point is not in this language
Use COMP-3 or COMP with as many decimals as are needed: PIC S9(9)V9(9) COMP-3.

@ COMPUTATIONAL-2
floating point is not in this language
Use COMP-3 or COMP with as many decimals as are needed: PIC S9(9)V9(9) COMP-3.

@ COMPUTATIONAL-5
the usages are DISPLAY, COMP and COMP-3
Write COMP.

@ CONSTANT
CONSTANT is not in this language
Declare an item with VALUE, and do not store into it.

@ CURRENCY
CURRENCY SIGN is not in this language
The sign of a picture is $. Show another one by a literal.

@ DATA DIVISION
the parts of the program are in the wrong order
The divisions are IDENTIFICATION with PROGRAM-ID, ENVIRONMENT, DATA and
PROCEDURE, in this order.

@ DECIMAL-POINT
DECIMAL-POINT IS COMMA is not in this language
Write numbers and pictures with a point.

@ DECLARATIVES
DECLARATIVES is not in this language
Write AT END or INVALID KEY, or test the FILE STATUS after each file statement.

@ DEPENDING
OCCURS DEPENDING ON is not in this language
Write OCCURS with the greatest number, and keep the present number in an item.

@ DESCENDING
keys of a table are not in this language
Remove the clause. Repeat by PERFORM VARYING until the element is found.

@ DISPLAY AT
DISPLAY shows lines
There is no screen. Write DISPLAY with its operands only.

@ DISPLAY UPON
DISPLAY shows on the standard output only
Remove UPON and the name after it.

@ DIVISION USING
a program has no parameters
Remove USING. ACCEPT takes a line of the console.

@ ENVIRONMENT DIVISION
the parts of the program are in the wrong order
The divisions are IDENTIFICATION with PROGRAM-ID, ENVIRONMENT, DATA and
PROCEDURE, in this order.

@ END DECLARATIVES
DECLARATIVES is not in this language
Write AT END or INVALID KEY, or test the FILE STATUS after each file statement.

@ END PROGRAM
END PROGRAM is after the last period
Write a period before it, and no statement after it.

@ EXIT PARAGRAPH
EXIT PARAGRAPH is not in this language
Put the statements that may be left out under an IF.

@ EXIT PERFORM
EXIT PERFORM is not in this language
Set an item, and test it in UNTIL.

@ EXIT PROGRAM
EXIT PROGRAM is not in this language
Write STOP RUN.

@ EXIT SECTION
EXIT SECTION is not in this language
Put the statements that may be left out under an IF.

@ EXTERNAL
EXTERNAL is not in this language
One source is one program. Keep data of several runs in a file.

@ FILE SECTION
FILE SECTION is before WORKING-STORAGE SECTION
Move the FILE SECTION up, or look for a missing period before it.

@ FROM DAY
ACCEPT takes FROM DATE only
Compute the day of the year from the date.

@ FROM DAY-OF-WEEK
ACCEPT takes FROM DATE only
Compute the day of the week from the date.

@ GLOBAL
GLOBAL is not in this language
One source is one program, and all its data is visible everywhere.

@ HIGHER
the relation is written GREATER
Write `IF A > B`.

@ I-O-CONTROL
I-O-CONTROL is not in this language
Remove the paragraph.

@ ID DIVISION
the division is written IDENTIFICATION DIVISION
Write IDENTIFICATION.

@ IDENTIFICATION DIVISION
a source has one program
Remove the second program, or give it a source of its own.

@ INDEX
index items are not in this language
Use an integer: PIC 99.

@ INDEXED BY
INDEXED BY is not in this language
Declare an integer, PIC 99, and use it as a subscript: PRICE (I).

@ INITIALIZE REPLACING
INITIALIZE has no REPLACING
MOVE the values.

@ INITIALIZE WITH
INITIALIZE has no phrases
MOVE the values.

@ LENGTH
LENGTH OF is not in this language
Write the number. `cobol layout SOURCE` shows the length of each item.

@ LINAGE
LINAGE is not in this language
There are no printers. Count the lines in an item.

@ LINE
files of lines are not in this language
Write ORGANIZATION SEQUENTIAL, or leave the clause out. The files of a volume
are not text files of the host.

@ LINKAGE
LINKAGE SECTION is not in this language
A program has no parameters. ACCEPT takes a line of the console.

@ LOCAL-STORAGE
LOCAL-STORAGE SECTION is not in this language
Declare the data in WORKING-STORAGE SECTION.

@ LOCK
LOCK is not in this language
One run at a time uses a volume, so no row is ever locked.

@ LOWER
the relation is written LESS
Write `IF A < B`.

@ MOVE FALSE
MOVE stores no FALSE
MOVE a value to the item that the condition name tests.

@ MOVE TRUE
MOVE stores no TRUE
Write SET condition-name TO TRUE.

@ NATIONAL
NATIONAL is not in this language
Characters are bytes: PIC X.

@ NEXT SENTENCE
NEXT SENTENCE is not in this language
Write CONTINUE, and end the IF by END-IF.

@ OCCURS TO
OCCURS DEPENDING ON is not in this language
Write OCCURS with the greatest number, and keep the present number in an item.

@ OPEN OUTPUT
each file has one mode
Write the mode before the names of its files.

@ PAGE
there are no printers
Write a blank line in its place.

@ PERFORM AFTER
PERFORM VARYING has no AFTER
PERFORM a paragraph that has the inner PERFORM VARYING.

@ PREVIOUS
READ PREVIOUS is not in this language
READ NEXT goes from lesser keys to greater ones. For the other order give the
file a key that falls where the first one rises, such as 999999 minus it.

@ PROCEDURE DIVISION
the parts of the program are in the wrong order
The divisions are IDENTIFICATION with PROGRAM-ID, ENVIRONMENT, DATA and
PROCEDURE, in this order.

@ PROCEDURE USING
a program has no parameters
Remove USING. ACCEPT takes a line of the console.

@ PROCEED
ALTER and PROCEED TO are not in this language
Choose by IF or EVALUATE.

@ RD
Report Writer is not in this language
Show lines by DISPLAY, or WRITE them to a file.

@ READ INVALID
READ has its KEY before INVALID KEY
The order is INTO, KEY, and then the phrases.

@ READ NEXT
NEXT is written after the name of the file
Write READ file NEXT.

@ READ WITH
READ has no LOCK
One run at a time uses a volume, so no row is ever locked.

@ REEL
reels and units are not in this language
Remove the phrase.

@ REMARKS
REMARKS is not in this language
Write comments, with an asterisk in column 7.

@ RENAMES
RENAMES is not in this language
Declare a group around the items, or use REDEFINES.

@ REPORT
Report Writer is not in this language
Show lines by DISPLAY, or WRITE them to a file.

@ REPOSITORY
REPOSITORY is not in this language
Remove the paragraph.

@ RESERVE
RESERVE is not in this language
Remove the clause.

@ RETURN-CODE
RETURN-CODE is not in this language
The exit status says how the run ended. Keep a result in a file.

@ SAME
SAME AREA is not in this language
Remove the clause.

@ SCREEN
SCREEN SECTION is not in this language
ACCEPT takes a line of the console, and DISPLAY shows one.

@ SD
SORT is not in this language
Write the rows to an indexed file whose key is the order, and read it with READ
NEXT.

@ SET FALSE
SET stores the value for TRUE only
MOVE another value to the item that the condition name tests.

@ SPECIAL-NAMES
SPECIAL-NAMES is not in this language
Remove the paragraph. Write numbers with a point.

@ STATUS KEY
the clause is written FILE STATUS IS item
Write FILE STATUS.

@ SWITCH
switches are not in this language
ACCEPT a line of the console.

@ UNIT
reels and units are not in this language
Remove the phrase.

@ UPON
DISPLAY shows on the standard output only
Remove UPON and the name after it.

@ USING
a program has no parameters
Remove USING. ACCEPT takes a line of the console.

@ VARYING AFTER
PERFORM VARYING has no AFTER
PERFORM a paragraph that has the inner PERFORM VARYING.

@ WITH LOCK
LOCK is not in this language
Remove it. One run at a time uses a volume, so no row is ever locked.

@ WORKING STORAGE
the section is written WORKING-STORAGE SECTION
Write a hyphen.

@ WRITE AFTER
there are no printers
Remove AFTER ADVANCING. DISPLAY shows a line, and WRITE adds a row to a file.

@ WRITE AT
there are no printers
Remove the phrase. Count the lines in an item.

@ WRITE BEFORE
there are no printers
Remove BEFORE ADVANCING. DISPLAY shows a line, and WRITE adds a row to a file.

@ YYYYMMDD
ACCEPT FROM DATE gives six digits, YYMMDD
Remove the word, and MOVE the century to an item of its own.
"#;

/// Characters that begin no token.
pub(crate) const SIGNS: &[u8] = br#"
@ [
square brackets are not in this language
Write subscripts and parts in parentheses: X (I) and X (2:3).

@ _
an underscore is not part of a word
Write a hyphen: CUSTOMER-NAME.

@ &
an ampersand is not in this language
Continue a long literal on the next line, or show two literals one after the
other.

@ $
a dollar sign is allowed in pictures only
Put it into a literal.

@ #
a number sign begins no word or literal
Put it into a literal.

@ @
an at sign begins no word or literal
Put it into a literal.

@ .
a period needs a space after it
Write a space after the period that ends the sentence. A number does not end
with its point: write 5 or 5.0.

@ ^
there is no exponentiation
Multiply the number by itself.

@ !
an exclamation mark begins no word or literal
Put it into a literal. The relation is written NOT =.
"#;
