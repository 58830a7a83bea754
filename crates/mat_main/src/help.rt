//! What `--help` and `--version` print.

use mat_program::Texts;

/// The two texts.
pub(crate) const TEXTS: Texts<'static> = Texts {
    help: HELP,
    version: VERSION,
};

/// The line of `--version`.
pub(crate) const VERSION: &str = "matbench 1.4.0\n";

/// The text of `--help`, of lines of at most 100 columns. The script `matbench` prints the lines between the two quotation marks where the
/// program is not built, so none of them has such a mark or a backslash.
pub(crate) const HELP: &str = "\
matbench: weighted optimisation over matroids, with answers that are proved best

try:   matbench intersect examples/people.txt
       docs/COOKBOOK.md has recipes, examples/README.md stories, docs/FORMATS.md the formats

usage: matbench show FILE                        any form: its canonical text
       matbench convert FILE                     any form: the same with names for its elements and
                                                 its vertices
       matbench best [--workers W] FILE          list N 1: a heaviest set of each size that the
                                                 matroid allows
       matbench intersect [--workers W] FILE     pair: a heaviest set of each size that both
                                                 matroids allow
       matbench union [--workers W] FILE         list N M: disjoint sets, one for each matroid and
                                                 allowed by it, as many elements as can be, and
                                                 then of greatest weight
       matbench pack [--workers W] FILE          list N 1: as many disjoint bases as there are; a
                                                 base is a largest set that the matroid allows
       matbench cover [--workers W] FILE         list N 1: as few allowed sets as hold all elements,
                                                 or an element that is in none
       matbench trees [--workers W] K FILE       graph: K spanning trees that share no edge, or why
                                                 not
       matbench arborescence [--workers W] FILE  rooted: arcs of least cost along which the root
                                                 reaches all vertices, or why not
       matbench disjoint [--workers W] K FILE    rooted: K sets of arcs that share no arc, along
                                                 each of which the root reaches all vertices, or
                                                 why not
       matbench rainbow [--workers W] FILE       coloured: a heaviest forest of each size of edges
                                                 of different colours
       matbench assign [--workers W] FILE        table: heaviest cells of each number, no two in one
                                                 row or column
       matbench cuts FILE                        rooted: arcs of least cost, and prices of vertex
                                                 sets that pay for them, or why not
       matbench check [--workers W] FILE CERT    whether a certificate is right for a description:
                                                 yes, or what fails of it
       matbench witness RUNG FILE CERT           what shows without a search that a rung of a right
                                                 certificate of intersect is best
       matbench verify RUNG FILE CERT WIT        whether a witness shows this: yes, or which part of
                                                 it fails
       matbench sample [--workers W] KIND SIZE SEED
                                                 a problem made from a number, solved and checked,
                                                 in one line
       matbench batch [--workers W] LIST         the answers to the jobs of a list, one after the
                                                 other
       matbench --tell FILE CERT                 the answer of a right certificate in words, and why
                                                 none is better
       matbench --picture FILE CERT              the answer of a right certificate as an SVG picture
       matbench --help                           this text
       matbench --version                        the version

FILE names a description, CERT a certificate, WIT a witness, LIST a list; - is standard input, which
is read once: a second - is empty. What a command gives is written to standard output.

--workers W are two words right behind the command, W from 1 to 16 (not --workers=4): so many
workers compute the answer side by side, where there is enough to do; without the option there is
one. Right behind a command --workers is always the option, and names no file; show, convert, cuts,
witness and verify take none. --tell and --picture stand before two names, and --help and --version
stand alone: in intersect --help the second word names a file.

K is from 1 to 64, RUNG from 0 to 500. KIND is pair, list, graph, rooted or table, SIZE from 1 to
500, and SEED from 1 to 2147483646.

A list is jobs 1, then up to 32 lines job with the words of best, intersect, union, pack, cover,
trees, arborescence, disjoint, rainbow or assign, without the option, then end. Its files are named
from the folder of the call, and their names have no spaces.

A description is a text. Each line ends with a newline, and its words have one space between them.
There are no comments, no empty lines, no tabs, no Windows line ends, and no other bytes than those
of printable ASCII, 32 to 126. Elements and vertices are counted from 0.
    matroids 1                     the version of the format
    pair N                         the form: two matroids on the elements 0 to N-1, N at most 500
    weights WEIGHT WEIGHT ..       a weight for each element, from -1000000000000 to 1000000000000;
                                   or A:B, two such numbers, of which B breaks ties and is not 0
    partition Q                    the first matroid: Q classes, at most 500 ..
    class CAP E E ..               .. each with at most CAP of its elements in a set; no element in
                                   two classes, and one in no class has no limit. The first number
                                   is always the cap: if you leave it out, or write it at the end,
                                   the first element is taken for it, and often no note says so
    uniform CAP                    the second matroid: sets of at most CAP elements (or a partition
                                   again)
    end

For best, pack and cover the form is list N 1, then weights and one matroid; for union list N M,
then weights and M matroids; for trees graph V E, then E lines edge END END; for arborescence,
disjoint and cuts rooted V E ROOT, then E lines arc TAIL HEAD COST; for rainbow coloured V E C, then
E lines edge END END COLOUR WEIGHT; for assign table R C E, then E lines cell ROW COLUMN WEIGHT.

Other matroids: laminar Q, then Q lines set CAP E E .., of which any two are apart or nested;
graphic V, then N lines edge END END, whose sets are forests; gf2 D, then N lines column BITS of D
digits 0 or 1, whose sets have no part that adds up to zero; transversal Q, then Q lines set E E ..,
whose sets can be given to different ones of them; gammoid V A, then sources S S .., targets T T ..
and A lines arc TAIL HEAD, whose sets are reached from the sources at once by routes that do not
meet.

Matroids of the matroid that follows: dual; truncate CAP; restrict E E ..; contract E E ..; of M
that follow: union M; at most 16 deep.

Elements and vertices may have names, words of at most 32 bytes: the first line is then matroids 2,
and behind the form line come elements NAME NAME .., and in graph, rooted and coloured vertices NAME
NAME ..; rooted V E has its root in a line root NAME behind these. Names then stand in the lists of
elements (class, set, restrict, contract), for the ends of the form's edges and arcs, and for the
root; all else stays a number, in certificates too. convert gives the names e0, e1 .. and v0, v1 ..
where there are none.

A certificate is a text of such lines, the answer of a command; docs/FORMATS.md has those of each.
That of best or intersect has a rung for each size from 0 on.
    certificate 1                  the version of the format
    answer intersect N K           the command (best, or intersect), the number of elements, and the
                                   largest size
    rung SIZE WEIGHT               for each size the weight of a set of so many elements ..
    set E E ..                     .. and the set
    first WEIGHT WEIGHT ..         of intersect two lists of weights, which add up to the given
    second WEIGHT WEIGHT ..        ones, and under which the set is heaviest of its size in the
                                   first and in the second matroid
    cut E E ..                     of intersect a set which shows that no larger set is allowed by
                                   both
    end

exit statuses, and the line that is then written to standard error (of --help and --version the
status alone):
    0  done
    1  the certificate is not right: the first clause of it that fails (header, weight, dependent,
       sum, beaten, short, cut, overlap, level, outside, missed, claim, empty, root, crossing, tree
       or colours), with two numbers that say where; or the witness does not show the rung: its
       first part that fails, from 1 to 4. docs/FORMATS.md, What is wrong with an answer. Where the
       description was changed since, the answer is of another problem: solve again
    2  usage: no command, an unknown one, another number of words, or a number out of range. Compare
       the words with those above: K and RUNG come before FILE, --workers W right behind the
       command, and a name with a space in it needs quotation marks
    3  bad description: its first fault, by number and name, and the line; docs/FORMATS.md, What is
       wrong with a description, says how to find the cause. It may be in another line:
       UnknownWord: the line is a comment or misspelt; or an earlier line has a wrong number of
         lines; or a line or a matroid is missing, as the second one of a pair
       TooManyWords: a name has a space in it, or a comment is behind the words; or N in line 2 is
         too small
       UnknownName: a word of the line is no name of the line elements, or vertices: it is misspelt,
         or has a space in it
       Repeated, Crossing, NumberRange: in this class or set or in an earlier one the cap may be at
         the end, where it is taken for an element
       NumberSpelling: the cap may be missing or at the end, so that a name is in its place
    4  bad certificate: likewise; docs/FORMATS.md, What is wrong with a certificate
    5  read fault: a file could not be opened or read: it is not there, is a folder, or may not be
       read. Give the names to the command cat, which says which one it is and why. Each word behind
       the command may be taken for a name, as in intersect --help
    6  write fault: the answer could not be written whole
    7  memory: there was not enough
    8  too long: a description or a list of more than 4194304 bytes, or a certificate or a witness
       of more than 67108864
    9  wrong shape: the form of the problem is not the command's (above), or not that of the
       certificate's command; or for witness and verify the certificate is none of intersect, or has
       no rung of this number. Line 2 of FILE has the form, and line 2 of CERT the command
   11  unwitnessed: a matroid is not uniform, partition, laminar, graphic, gammoid or gf2
   12  bad witness: its first fault, by number and name, and the line; docs/FORMATS.md, Witnesses
   13  bad cost: for cuts a cost is below 0 or has a tie
   14  bad list: the line of the first fault
The script ./matbench ends with 70 where it cannot build the program.
";
