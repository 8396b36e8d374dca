//! Forms of statements and entries, and the reserved words, that `tools/fault-numbers --write` makes from docs/LANGUAGE.md.

/// Each verb with its form. Other forms have heads of their own.
pub(crate) const FORMS: &[u8] = br#"
@ ACCEPT
ACCEPT item [FROM DATE]

@ ADD
ADD number ... TO receiver ... [phrases] [END-ADD]
ADD number ... [TO number] GIVING receiver ... [phrases] [END-ADD]

@ CLOSE
CLOSE file ...

@ COMPUTE
COMPUTE receiver ... {= | EQUAL} expression [phrases] [END-COMPUTE]

@ CONTINUE
CONTINUE

@ DELETE
DELETE file [RECORD] [INVALID [KEY] statement ...] [NOT INVALID [KEY] statement
    ...] [END-DELETE]

@ DISPLAY
DISPLAY operand ... [[WITH] NO ADVANCING]

@ DIVIDE
DIVIDE number INTO receiver ... [phrases] [END-DIVIDE]
DIVIDE number {INTO | BY} number GIVING receiver ... [phrases] [END-DIVIDE]
DIVIDE number {INTO | BY} number GIVING receiver REMAINDER item [phrases]
    [END-DIVIDE]

@ ENTRY
level [name | FILLER] [clause ...].
88 name {VALUE | VALUES} [IS | ARE] {literal [{THRU | THROUGH} literal]} ... .

@ EVALUATE
EVALUATE subject [ALSO subject] ...
    {{WHEN object [ALSO object] ...} ... statement ...} ...
    [WHEN OTHER statement ...]
[END-EVALUATE]

@ EXIT
EXIT

@ FD
[DATA DIVISION.
[FILE SECTION.
[{FD file [clause ...]. entry ...} ...]]
[WORKING-STORAGE SECTION.
[entry ...]]]

@ IF
IF condition [THEN] statement ... [ELSE statement ...] [END-IF]

@ INITIALIZE
INITIALIZE item ...

@ INSPECT
INSPECT item {tallying [replacing] | replacing | converting}
tallying: TALLYING {counter FOR {CHARACTERS limits | {ALL | LEADING} {text
    limits} ...} ...} ...
replacing: REPLACING {CHARACTERS BY text limits | {ALL | LEADING | FIRST} {text
    BY text limits} ...} ...
converting: CONVERTING text TO text limits
limits: [BEFORE [INITIAL] text] [AFTER [INITIAL] text], in either order

@ MOVE
MOVE {item | literal} TO item ...

@ MULTIPLY
MULTIPLY number BY receiver ... [phrases] [END-MULTIPLY]
MULTIPLY number BY number GIVING receiver ... [phrases] [END-MULTIPLY]

@ OPEN
OPEN {{INPUT | OUTPUT | I-O | EXTEND} file ...} ...

@ PERFORM
PERFORM [how often] statement ... END-PERFORM
PERFORM procedure [{THRU | THROUGH} procedure] [how often]
how often: {integer | item} TIMES
how often: [[WITH] TEST {BEFORE | AFTER}] [VARYING item FROM number BY number]
    UNTIL condition

@ READ
READ file [NEXT] [RECORD] [INTO item] [KEY [IS] key]
    {[[AT] END statement ...] [NOT [AT] END statement ...] |
     [INVALID [KEY] statement ...] [NOT INVALID [KEY] statement ...]}
[END-READ]

@ REWRITE
REWRITE record [FROM item] [INVALID [KEY] statement ...] [NOT INVALID [KEY]
    statement ...] [END-REWRITE]

@ SELECT
SELECT [OPTIONAL] file ASSIGN [TO] {name | literal} [clause ...].

@ SET
SET condition-name ... TO TRUE

@ START
START file [KEY [IS] [NOT] relation key] [INVALID [KEY] statement ...] [NOT
    INVALID [KEY] statement ...] [END-START]

@ STOP
STOP RUN

@ STRING
STRING {sender ... DELIMITED [BY] {delimiter | SIZE}} ...
    INTO receiver [[WITH] POINTER pointer]
    [[ON] OVERFLOW statement ...] [NOT [ON] OVERFLOW statement ...]
[END-STRING]

@ SUBTRACT
SUBTRACT number ... FROM receiver ... [phrases] [END-SUBTRACT]
SUBTRACT number ... FROM number GIVING receiver ... [phrases] [END-SUBTRACT]

@ WRITE
WRITE record [FROM item] [INVALID [KEY] statement ...] [NOT INVALID [KEY]
    statement ...] [END-WRITE]
"#;

/// The reserved words.
pub(crate) const RESERVED: &[u8] = br#"
ACCEPT ACCESS ADD ADVANCING AFTER ALL ALPHABETIC ALPHABETIC-LOWER
ALPHABETIC-UPPER ALSO ALTERNATE AND ANY ARE ASSIGN AT AUTHOR BEFORE BINARY
BLANK BLOCK BY CHARACTER CHARACTERS CLOSE COMP COMP-3 COMPUTATIONAL
COMPUTATIONAL-3 COMPUTE CONFIGURATION CONTAINS CONTINUE CONVERTING DATA DATE
DATE-COMPILED DATE-WRITTEN DELETE DELIMITED DISPLAY DIVIDE DIVISION DUPLICATES
DYNAMIC ELSE END END-ADD END-COMPUTE END-DELETE END-DIVIDE END-EVALUATE END-IF
END-MULTIPLY END-PERFORM END-READ END-REWRITE END-START END-STRING END-SUBTRACT
END-WRITE ENVIRONMENT EQUAL ERROR EVALUATE EXIT EXTEND FALSE FD FILE
FILE-CONTROL FILLER FIRST FOR FROM GIVING GREATER HIGH-VALUE HIGH-VALUES I-O
IDENTIFICATION IF IN INDEXED INITIAL INITIALIZE INPUT INPUT-OUTPUT INSPECT
INSTALLATION INTO INVALID IS JUST JUSTIFIED KEY LABEL LEADING LEFT LESS
LOW-VALUE LOW-VALUES MODE MOVE MULTIPLY NEGATIVE NEXT NO NOT NUMERIC
OBJECT-COMPUTER OCCURS OF OMITTED ON OPEN OPTIONAL OR ORGANIZATION OTHER OUTPUT
OVERFLOW PACKED-DECIMAL PERFORM PIC PICTURE POINTER POSITIVE PROCEDURE PROGRAM
PROGRAM-ID QUOTE QUOTES RANDOM READ RECORD RECORDS REDEFINES RELATIVE REMAINDER
REPLACING REWRITE RIGHT ROUNDED RUN SECTION SECURITY SELECT SEPARATE SEQUENTIAL
SET SIGN SIZE SOURCE-COMPUTER SPACE SPACES STANDARD START STATUS STOP STRING
SUBTRACT SYNC SYNCHRONIZED TALLYING TEST THAN THEN THROUGH THRU TIMES TO
TRAILING TRUE UNTIL USAGE VALUE VALUES VARYING WHEN WITH WORKING-STORAGE WRITE
ZERO ZEROES ZEROS
"#;
