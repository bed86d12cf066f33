// Theorems alone: see specs/Same.antt and specs/Worded.antt.
