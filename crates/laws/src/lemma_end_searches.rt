//! Entries of searches lower the measure: dry places, fills, swapping out, victims caught and let go.
